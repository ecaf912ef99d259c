//! The keys that are drawn, and the requests that stand under them.
ghost use Rattle.std.specs.Prelude.{◌≡◌, ◌+◌, ◌<◌, ◌++◌, ◌∷◌, [], ℕ, None, Some, IfOk, OnOk};
ghost use Rattle.std.specs.Map.{lookup, remove_entry, set_value};
ghost use Rattle.std.specs.Option.{option_and_then, option_map};
ghost use Rattle.std.specs.BTreeMap.{IsOrdered, is_at};
ghost use Rattle.std.specs.List.{AllByRecursion as Each};
ghost use Rattle.std.specs.Ordering.{nat_cmp};
ghost use Rattle.std.specs.Rc.{rc_slice_items};
ghost use Rattle.model_reach.specs.Part.{can_draw, key_at, no_key};
ghost use Rattle.model_exec.specs.Execed as plain;
ghost use Rattle.model_exec.specs.Execed.{exec_part, is_number};
ghost use Rattle.aio_exec.specs.Keeps.{came_in, came_of, found_of, given, given_in, on_of, standing_as, waits_on};
ghost use Rattle.aio_exec.specs.declared.requests.Standing.TheVariants as coded;

use aio_base::Memory;
use aio_task::FutureId;
use std::alloc::Global;
use std::collections::BTreeMap;
use std::marker::Model;
use std::rc::RcSlice;

// So many keys can be drawn: those below 2^34.
const MOST: u64 = 4_294_967_296;

/// A request that stands: the outside is asked to do its job, or it waits on a future for what the
/// job comes to, or that came.
#[derive(Drop)]
pub enum Standing {
    Asking,
    Waiting {
        on: FutureId,
        came: Option<RcSlice<u8>>,
    },
}

/// Which of these it is.
#[derive(Clone, Copy)]
pub enum Found {
    Nothing,
    Asking,
    Waiting,
}

/// How many keys were drawn, and each request that stands, by the place of its key. Contracts see
/// them in order of asking.
#[derive(Drop)]
pub struct Requests {
    drawn: u64,
    standing: BTreeMap<u64, Standing>,
}

impl Model for Requests {
    ghost use Rattle.std.specs.Prelude.{◌<◌, map};
    ghost use Rattle.std.specs.List.{AllByRecursion as Each};
    ghost use Rattle.std.specs.BTreeMap.{IsOrdered};
    ghost use Rattle.std.specs.Ordering.{nat_cmp};
    ghost use Rattle.aio_exec.specs.Code.{coded_drawn};
    ghost use Rattle.aio_exec.specs.Drawn.{Drawn};
    ghost use Rattle.aio_exec.specs.Keeps.{entry_as};

    ghost Value = { Drawn };

    ghost coded = { coded_drawn };

    ghost view = { λ a. record { drawn = a.drawn; standing = map entry_as a.standing.entries } };

    ghost invariant = { λ a. IsOrdered nat_cmp a.standing
        × Each (λ entry. entry.0 < a.drawn) a.standing.entries };
}

fn forget(_it: Option<Standing>) {}

fn found_in(it: &Standing) -> Found
    ensures { result ≡ found_of (Some (standing_as it.now)) }
{
    match it {
        Standing::Asking => Found::Asking,
        Standing::Waiting { on: _, came: _ } => Found::Waiting,
    }
}

// What came.
fn came_in(it: Option<Standing>) -> Option<RcSlice<u8>>
    ensures { option_map rc_slice_items result ≡ came_of it }
{
    match it {
        Some(Standing::Waiting { on: _, came }) => came,
        Some(Standing::Asking) => None,
        None => None,
    }
}

// It waits on this future.
fn wait_on(it: &mut Standing, on: FutureId)
    ensures { it.new ≡ coded.Waiting on None }
{
    *it = Standing::Waiting { on, came: None };
}

// One of them waits on this future.
fn wait_in(standing: &mut BTreeMap<u64, Standing>, place: u64, on: FutureId)
    ensures entries { standing.new.entries
        ≡ set_value (is_at (nat_cmp place)) standing.old.entries (coded.Waiting on None) }
    ensures below { (n : ℕ) → Each (λ entry. entry.0 < n) standing.old.entries
        → Each (λ entry. entry.0 < n) standing.new.entries }
    ensures ordered { IsOrdered nat_cmp standing.old → IsOrdered nat_cmp standing.new }
{
    if let Some(it) = standing.get_mut(&place) {
        wait_on(it, on);
    }
}

// It is given what its job came to: the future on which it waits.
fn give(it: &mut Standing, came: RcSlice<u8>) -> Option<FutureId>
    ensures on { result ≡ on_of it.old }
    ensures after { it.new ≡ given came it.old }
{
    match it {
        Standing::Asking => {
            drop(came);
            None
        }
        Standing::Waiting { on, came: held } => {
            *held = Some(came);
            Some(*on)
        }
    }
}

// One of them is.
fn give_in(
    standing: &mut BTreeMap<u64, Standing>,
    place: u64,
    came: RcSlice<u8>,
) -> Option<FutureId>
    ensures on { result
        ≡ option_and_then on_of (lookup (is_at (nat_cmp place)) standing.old.entries) }
    ensures none { lookup (is_at (nat_cmp place)) standing.old.entries ≡ None
        → standing.new.entries ≡ standing.old.entries }
    ensures entries { (it : coded.the_data)
        → lookup (is_at (nat_cmp place)) standing.old.entries ≡ Some it
        → standing.new.entries
        ≡ set_value (is_at (nat_cmp place)) standing.old.entries (given came it) }
    ensures below { (n : ℕ) → Each (λ entry. entry.0 < n) standing.old.entries
        → Each (λ entry. entry.0 < n) standing.new.entries }
    ensures ordered { IsOrdered nat_cmp standing.old → IsOrdered nat_cmp standing.new }
{
    match standing.get_mut(&place) {
        Some(it) => give(it, came),
        None => {
            drop(came);
            None
        }
    }
}

impl Requests {
    /// None was asked.
    pub fn new(alloc: Global) -> Requests
        ensures { result ≡ record { drawn = 0; standing = [] } }
    {
        Requests {
            drawn: 0,
            standing: BTreeMap::new(alloc),
        }
    }

    /// Whether one more key can be drawn.
    pub fn can_draw(&self) -> bool
        ensures { result ≡ can_draw exec_part self.now.drawn 1 }
    {
        self.drawn < MOST
    }

    /// A key is drawn, for a request that is answered at once. It takes no memory.
    pub fn draw(&mut self)
        requires { key_at exec_part self.old.drawn < no_key }
        ensures { self.new ≡ record self.old { drawn = self.old.drawn + 1 } }
    {
        self.drawn += 1;
    }

    /// A key is drawn for a request that asks the outside: the key.
    pub fn ask(&mut self) -> Result<u64, Memory>
        requires { key_at exec_part self.old.drawn < no_key }
        ensures key { IfOk result (λ key. key ≡ key_at exec_part self.old.drawn) }
        ensures after { OnOk result (self.new ≡ record {
          drawn = self.old.drawn + 1;
          standing = self.old.standing ++ (self.old.drawn, plain.Asking) ∷ [];
        }) }
    {
        let place = self.drawn;
        self.drawn += 1;
        forget(self.standing.insert(place, Standing::Asking)?);
        Ok(4 * place + 2)
    }

    /// What stands under the key at this place.
    pub fn find(&self, place: u64) -> Found
        ensures { result ≡ found_of (lookup (is_number place) self.now.standing) }
    {
        match self.standing.get(&place) {
            Some(it) => found_in(it),
            None => Found::Nothing,
        }
    }

    /// A request that asked waits on this future. It takes no memory.
    pub fn wait(&mut self, place: u64, on: FutureId)
        ensures { self.new ≡ record self.old {
          standing = set_value (is_number place) self.old.standing (plain.Waiting on None);
        } }
    {
        wait_in(&mut self.standing, place, on);
    }

    /// A request stands no more: what its job came to, if it came to something. It takes no memory.
    pub fn end(&mut self, place: u64) -> Option<RcSlice<u8>>
        ensures came { option_map rc_slice_items result
            ≡ came_in (lookup (is_number place) self.old.standing) }
        ensures after { self.new ≡ record self.old {
          standing = remove_entry (is_number place) self.old.standing;
        } }
    {
        let it = self.standing.remove(&place);
        came_in(it)
    }

    /// A request that waits is given what its job came to: the future on which it waits. It takes
    /// no memory.
    pub fn give(&mut self, place: u64, came: RcSlice<u8>) -> Option<FutureId>
        ensures on { result ≡ waits_on (lookup (is_number place) self.old.standing) }
        ensures after { self.new ≡ record self.old {
          standing = given_in place (rc_slice_items came)
              (lookup (is_number place) self.old.standing) self.old.standing;
        } }
    {
        give_in(&mut self.standing, place, came)
    }
}
