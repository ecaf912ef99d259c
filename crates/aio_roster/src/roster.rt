//! The children by number.
ghost use Rattle.std.specs.Prelude.{◌≡◌, [], IfOk, ◌<◌, ◌+◌, ◌-◌, ◌^◌, false, nat_lt, map};
ghost use Rattle.model_hub.specs.Posts.{note, told_of};
ghost use Rattle.model_hub.specs.Hub.{waiting_of, is_broken};
ghost use Rattle.model_hub.specs.Gathering.{most_waiting, halt_at};
ghost use Rattle.aio_select.specs.Takes.{list_of};
ghost use Rattle.aio_roster.specs.Holders.{HoldsSeat, HeldBy, named_in};
ghost use Rattle.aio_roster.specs.Changes.{LeavesFree};

use crate::noting::{halt_at, item_of, note_from, told_by};
use crate::seating::pump_of;
use crate::{Post, PostKind};
use aio_base::Memory;
use aio_select::Noted;
use model_hub::{Child, Pump};
use std::alloc::Global;
use std::marker::Model;

/// How many seats an inbox has.
const SEATS: usize = 1_024;

/// How many Writes without a Room post a child has before it is no longer fed.
const MOST_WAITING: u64 = 7;

/// Who has a seat: the child with its number, and the pump that posts there.
#[derive(Clone, Copy)]
pub struct Holder {
    pub number: u32,
    pub child: Child,
    pub pump: Pump,
}

/// The children that a hub launched, by number, with the seats that are lent to them. Contracts see the
/// children, how many posts were noted, and whether there is room for a child more.
#[derive(Drop)]
pub struct Roster {
    pub(crate) children: Vec<Child>,
    pub(crate) holders: Vec<Option<u32>>,
    pub(crate) running: Vec<u32>,
    pub(crate) noted: u64,
}

impl Model for Roster {
    ghost use Rattle.aio_roster.specs.Rosters.{IsRoster, RosterSeen, have_room};

    ghost Value = { RosterSeen };

    ghost view = { λ roster. record {
      children = roster.children.items;
      noted = roster.noted;
      room = have_room roster.children roster.running;
    } };

    ghost invariant = { λ roster. IsRoster roster.children.items roster.holders.items roster.running.items roster.noted };
}

impl Roster {
    /// No child, over the 1,024 seats of an inbox.
    pub fn new(alloc: Global) -> Result<Roster, Memory>
        ensures { IfOk result (λ roster. roster
            ≡ record { children = []; noted = 0; room = false }) }
    {
        let holders = vec![in alloc; None; SEATS]?;
        Ok(Roster {
            children: Vec::new(alloc),
            holders,
            running: Vec::new(alloc),
            noted: 0,
        })
    }

    /// Fewer than seven Writes to it wait, as of one that was never launched.
    pub fn can_be_fed(&self, child: u32) -> bool
        ensures { result ≡ nat_lt (waiting_of child self.now.children) most_waiting }
    {
        match self.children.get(child as usize) {
            Some(child) => child.writes.saturating_sub(child.rooms) < MOST_WAITING,
            None => true,
        }
    }

    /// A Broken post of it was noted.
    pub fn is_broken(&self, child: u32) -> bool
        ensures { result ≡ is_broken child self.now.children }
    {
        match self.children.get(child as usize) {
            Some(child) => child.broken,
            None => false,
        }
    }

    // Who has a seat, if any.
    fn holder_of(&self, seat: u32) -> Option<Holder>
        ensures { HoldsSeat seat self.now result }
    {
        match named_in(self.holders.as_slice(), seat) {
            Some(number) => held_by(self.children.as_slice(), seat, number),
            None => None,
        }
    }

    /// Notes a post, and says whether it ends a select and which item it tells.
    pub fn note(&mut self, post: Post) -> Noted
        requires { self.old.noted < 2 ^ 62 - 1 }
        ensures children { self.new.children ≡ map (note post) self.old.children }
        ensures lent { LeavesFree self.old.children self.new.children }
        ensures noted { self.new.noted ≡ self.old.noted + 1 }
        ensures halt { result.halt ≡ halt_at post.kind }
        ensures tells { list_of result.item ≡ told_of self.old.children post }
    {
        let Post {
            seat,
            number: _,
            kind,
        } = post;
        let halt = halt_at(&kind);
        let Some(holder) = self.holder_of(seat) else {
            self.noted += 1;
            return Noted { halt, item: None };
        };
        self.children[holder.number as usize] = note_from(holder.pump, &kind, holder.child);
        self.noted += 1;
        let item = item_of(holder.number, told_by(holder.pump, kind));
        Noted { halt, item }
    }
}

// The child that is named for a seat.
fn named_in(holders: &[Option<u32>], seat: u32) -> Option<u32>
    ensures { result ≡ named_in holders.now seat }
{
    match holders.get(seat as usize) {
        Some(named) => *named,
        None => None,
    }
}

// The child with this number as the holder of a seat, where it has that.
fn held_by(children: &[Child], seat: u32, number: u32) -> Option<Holder>
    ensures { HeldBy seat children.now number result }
{
    let Some(child) = children.get(number as usize) else {
        return None;
    };
    match pump_of(seat, child) {
        Some(pump) => Some(Holder {
            number,
            child: *child,
            pump,
        }),
        None => None,
    }
}
