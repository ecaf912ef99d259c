//! The pending queue.
ghost use Rattle.std.specs.Prelude.{◌≡◌, ◌++◌, [], ◌∷◌, true, map, MatchOption};
ghost use Rattle.std.specs.Option.{option_map};
ghost use Rattle.aio_ready.specs.Entries.{loosely_marked};
ghost use Rattle.aio_ready.specs.Reach.{all_reach, IsBelow};
ghost use Rattle.aio_ready.specs.Queue.{no_handles, soon, soon_all, next_name, appended, cancelled, barred, next_action, given_after, taken, is_empty};

use crate::callbacks::Callbacks;
use crate::entry::{Entry, mark_loose};
use crate::handle::{Handle, HandleId, HandleName};
use crate::least::Least;
use crate::register::Register;
use crate::ticket::Ticket;
use aio_base::{Action, Memory};
use aio_chain::Chain;
use std::alloc::Global;
use std::marker::Model;

// No more numbers are given than so many.
const MOST_GIVEN: u64 = 1 << 62;

/// The handles that wait to run. Contracts see those before the bar and those after it, in the
/// order in which they were appended, and how many numbers were given.
#[derive(Drop)]
pub struct Ready {
    below: Chain<Entry>,
    late: Chain<Entry>,
    given: u64,
    // which of them wait under their names
    register: Register,
    // what the numbers of the others do not fall below
    least_below: Least,
    least_late: Least,
}

impl Model for Ready {
    ghost use Rattle.std.specs.Prelude.{◌≡◌, ◌++◌, map, true, ◌≤◌};
    ghost use Rattle.aio_ready.specs.Queue.{Queue, most_given};
    ghost use Rattle.aio_ready.specs.Registered.{state};
    ghost use Rattle.aio_ready.specs.Entries.{seen, AreRegistered};
    ghost use Rattle.aio_ready.specs.Reach.{all_reach};

    ghost Value = { Queue };

    ghost view = { λ a. record {
      below = map (seen (state a.register)) a.below;
      after = map (seen (state a.register)) a.late;
      given = a.given;
    } };

    ghost invariant = { λ a. (a.given ≤ most_given)
        × ((all_reach a.least_below a.below ≡ true)
        × ((all_reach a.least_late a.late ≡ true)
        × AreRegistered (state a.register) (a.below ++ a.late))) };
}

// Those with this name that say so by themselves are dead. They are looked through only where its
// number does not fall below.
fn mark(handles: &mut Chain<Entry>, least: Least, name: HandleName)
    requires { all_reach least handles.old ≡ true }
    ensures { handles.new ≡ map (loosely_marked name) handles.old }
{
    if least.reaches(name) {
        mark_loose(handles, name);
    }
}

// What serves for those before the bar, once those after it stand there too.
fn least_at_bar(below: &Chain<Entry>, least_below: Least, least_late: Least) -> Least
    requires { all_reach least_below below.now ≡ true }
    ensures below { all_reach result below.now ≡ true }
    ensures late { IsBelow result least_late }
{
    if below.is_empty() {
        least_late
    } else {
        least_below.and(least_late)
    }
}

impl Ready {
    /// No handles.
    pub fn new() -> Ready
        ensures { result ≡ no_handles }
    {
        Ready {
            below: Chain::new(),
            late: Chain::new(),
            given: 0,
            register: Register::new(),
            least_below: Least::of_none(),
            least_late: Least::of_none(),
        }
    }

    /// All the memory of one handle.
    pub fn ticket(&mut self, alloc: Global) -> Result<Ticket, Memory>
        ensures { self.new ≡ self.old }
    {
        Ticket::new(alloc)
    }

    /// `call_soon`. Where no number is left, the answer names no handle, and a cancel of it does
    /// nothing.
    pub fn soon(&mut self, ticket: Ticket, action: Action) -> HandleId
        ensures after { self.new ≡ soon action self.old }
        ensures name { result.name ≡ next_name self.old }
    {
        let name = self.next_name();
        self.count();
        self.append(ticket, name, action);
        HandleId { name }
    }

    /// `call_soon` of all that wait, in order.
    pub fn soon_all(&mut self, waiting: &mut Callbacks)
        ensures after { self.new ≡ soon_all waiting.old self.old }
        ensures waiting { waiting.new ≡ [] }
    {
        while let Some((action, ticket)) = waiting.pop() {
            let _id = self.soon(ticket, action);
        }
    }

    /// How many numbers were given.
    pub fn given(&self) -> u64
        ensures { result ≡ self.now.given }
    {
        self.given
    }

    /// A handle keeps its place, and does nothing. One that ran, or was cancelled, is as it was.
    pub fn cancel(&mut self, handle: HandleId)
        ensures { self.new ≡ cancelled handle.name self.old }
    {
        self.mark(handle.name);
    }

    /// A timer's handle, which keeps the timer's number.
    pub fn soon_due(&mut self, ticket: Ticket, action: Action, timer: u64)
        ensures { self.new ≡ appended (HandleName.Timer timer) action self.old }
    {
        self.append(ticket, HandleName::Timer(timer), action);
    }

    /// As `cancel`, of what `soon_due` appended under this number.
    pub fn cancel_due(&mut self, timer: u64)
        ensures { self.new ≡ cancelled (HandleName.Timer timer) self.old }
    {
        self.mark(HandleName::Timer(timer));
    }

    /// Whether nothing waits. Cancelled handles count.
    pub fn is_empty(&self) -> bool
        ensures { result ≡ is_empty (self.now.below ++ self.now.after) }
    {
        self.below.is_empty() && self.late.is_empty()
    }

    /// All that wait stand before the bar.
    pub fn set_bar(&mut self)
        ensures { self.new ≡ barred self.old }
    {
        self.least_below = least_at_bar(&self.below, self.least_below, self.least_late);
        self.least_late = Least::of_none();
        self.below.append(&mut self.late);
    }

    /// What runs next before the bar, with its memory. Those that were cancelled are let go.
    pub fn next_below(&mut self) -> Option<(Action, Ticket)>
        ensures action { option_map (λ next. next.0) result ≡ next_action self.old }
        ensures after { self.new ≡ taken self.old }
    {
        while let Some((handle, ticket)) = self.pop_below() {
            if !handle.dead {
                return Some((handle.action, ticket));
            }
        }
        None
    }

    // The first before the bar, with its memory.
    fn pop_below(&mut self) -> Option<(Handle, Ticket)>
        ensures { MatchOption result ((self.old.below ≡ []) × (self.new ≡ self.old))
            (λ first. self.old ≡ record self.new { below = first.0 ∷ self.new.below }) }
    {
        match self.below.pop() {
            None => None,
            Some((entry, spare)) => match entry {
                Entry::Loose(handle, leaf) => Some((handle, Ticket { spare, leaf })),
                Entry::Registered(name, action) => {
                    let (dead, leaf) = self.register.leave(name);
                    Some((Handle { name, action, dead }, Ticket { spare, leaf }))
                }
            },
        }
    }

    fn next_name(&self) -> HandleName
        ensures { result ≡ next_name self.now }
    {
        if self.given < MOST_GIVEN {
            HandleName::Given(self.given)
        } else {
            HandleName::Nameless
        }
    }

    fn count(&mut self)
        ensures { self.new ≡ record self.old { given = given_after self.old } }
    {
        if self.given < MOST_GIVEN {
            self.given += 1;
        }
    }

    fn append(&mut self, ticket: Ticket, name: HandleName, action: Action)
        ensures { self.new ≡ appended name action self.old }
    {
        let Ticket { spare, leaf } = ticket;
        match self.register.enter(name, leaf) {
            Ok(()) => self.late.push(spare, Entry::Registered(name, action)),
            Err(leaf) => {
                let dead = false;
                self.least_late = self.least_late.with(name);
                let handle = Handle { name, action, dead };
                self.late.push(spare, Entry::Loose(handle, leaf));
            }
        }
    }

    fn mark(&mut self, name: HandleName)
        ensures { self.new ≡ cancelled name self.old }
    {
        self.register.strike(name);
        mark(&mut self.below, self.least_below, name);
        mark(&mut self.late, self.least_late, name);
    }
}
