//! The keys that are drawn, and the requests that wait under them.
ghost use Rattle.std.specs.Prelude.{◌≡◌, ◌+◌, ◌<◌, ◌++◌, ◌∷◌, [], ℕ, Some, IfOk, OnOk};
ghost use Rattle.std.specs.Map.{lookup, remove_entry, set_value};
ghost use Rattle.model_value.specs.Value.{Value as AnyValue};
ghost use Rattle.model_reach.specs.Part.{can_draw, key_at, no_key};
ghost use Rattle.model_sync.specs.Synced as plain;
ghost use Rattle.model_sync.specs.Synced.{is_place, sync_part};
ghost use Rattle.std.specs.BTreeMap.{IsOrdered, is_at};
ghost use Rattle.std.specs.List.{AllByRecursion as Each};
ghost use Rattle.std.specs.Ordering.{nat_cmp};
ghost use Rattle.aio_sync.specs.Keeps.{found_of, moved, on_moved, value_of, waiting_as};
ghost use Rattle.aio_sync.specs.declared.keys.Waiting.TheVariants as coded;

use aio_base::{Memory, Value};
use aio_task::FutureId;
use std::alloc::Global;
use std::collections::BTreeMap;
use std::marker::Model;

// So many keys can be drawn: those below 2^34.
const MOST: u64 = 4_294_967_296;

/// A request that waits: the number of its lock, event or queue, and the future on which it waits.
#[derive(Drop)]
pub enum Waiting {
    Acquires {
        lock: usize,
        on: FutureId,
    },
    Awaits {
        event: usize,
        on: FutureId,
    },
    Puts {
        queue: usize,
        value: Value,
        on: FutureId,
    },
    Gets {
        queue: usize,
        on: FutureId,
    },
}

/// A request that waits, without the value that it is to put.
#[derive(Clone, Copy)]
pub enum Found {
    Nothing,
    Acquires { lock: usize, on: FutureId },
    Awaits { event: usize, on: FutureId },
    Puts { queue: usize, on: FutureId },
    Gets { queue: usize, on: FutureId },
}

/// How many keys were drawn, and each request that waits, by the place of its key. Contracts see
/// them in order of asking.
#[derive(Drop)]
pub struct Keys {
    drawn: u64,
    waiting: BTreeMap<u64, Waiting>,
}

impl Model for Keys {
    ghost use Rattle.std.specs.Prelude.{◌<◌, map};
    ghost use Rattle.std.specs.List.{AllByRecursion as Each};
    ghost use Rattle.std.specs.BTreeMap.{IsOrdered};
    ghost use Rattle.std.specs.Ordering.{nat_cmp};
    ghost use Rattle.aio_sync.specs.Code.{coded_drawn};
    ghost use Rattle.aio_sync.specs.Drawn.{Drawn};
    ghost use Rattle.aio_sync.specs.Keeps.{entry_as};

    ghost Value = { Drawn };

    ghost coded = { coded_drawn };

    ghost view = { λ a. record { drawn = a.drawn; waiting = map entry_as a.waiting.entries } };

    ghost invariant = { λ a. IsOrdered nat_cmp a.waiting
        × Each (λ entry. entry.0 < a.drawn) a.waiting.entries };
}

fn forget(_it: Option<Waiting>) {}

// Without its value.
fn found_in(it: &Waiting) -> Found
    ensures { result ≡ found_of (Some (waiting_as it.now)) }
{
    match it {
        Waiting::Acquires { lock, on } => Found::Acquires {
            lock: *lock,
            on: *on,
        },
        Waiting::Awaits { event, on } => Found::Awaits {
            event: *event,
            on: *on,
        },
        Waiting::Puts {
            queue,
            value: _,
            on,
        } => Found::Puts {
            queue: *queue,
            on: *on,
        },
        Waiting::Gets { queue, on } => Found::Gets {
            queue: *queue,
            on: *on,
        },
    }
}

// Its value.
fn value_in(it: Option<Waiting>) -> Option<Value>
    ensures { result ≡ value_of it }
{
    match it {
        Some(
            Waiting::Puts {
                queue: _,
                value,
                on: _,
            },
        ) => Some(value),
        Some(Waiting::Acquires { lock: _, on: _ }) => None,
        Some(Waiting::Awaits { event: _, on: _ }) => None,
        Some(Waiting::Gets { queue: _, on: _ }) => None,
        None => None,
    }
}

// It waits on another future.
fn move_to(it: &mut Waiting, next: FutureId)
    ensures { it.new ≡ moved next it.old }
{
    match it {
        Waiting::Acquires { lock: _, on } => *on = next,
        Waiting::Awaits { event: _, on } => *on = next,
        Waiting::Puts {
            queue: _,
            value: _,
            on,
        } => *on = next,
        Waiting::Gets { queue: _, on } => *on = next,
    }
}

// One of them waits on another future.
fn move_in(waiting: &mut BTreeMap<u64, Waiting>, place: u64, next: FutureId)
    ensures entries { (it : coded.the_data)
        → lookup (is_at (nat_cmp place)) waiting.old.entries ≡ Some it
        → waiting.new.entries
        ≡ set_value (is_at (nat_cmp place)) waiting.old.entries (moved next it) }
    ensures below { (n : ℕ) → Each (λ entry. entry.0 < n) waiting.old.entries
        → Each (λ entry. entry.0 < n) waiting.new.entries }
    ensures ordered { IsOrdered nat_cmp waiting.old → IsOrdered nat_cmp waiting.new }
{
    if let Some(it) = waiting.get_mut(&place) {
        move_to(it, next);
    }
}

impl Keys {
    /// None was drawn.
    pub fn new(alloc: Global) -> Keys
        ensures { result ≡ record { drawn = 0; waiting = [] } }
    {
        Keys {
            drawn: 0,
            waiting: BTreeMap::new(alloc),
        }
    }

    /// Whether one more can be drawn.
    pub fn can_draw(&self) -> bool
        ensures { result ≡ can_draw sync_part self.now.drawn 1 }
    {
        self.drawn < MOST
    }

    // The next key.
    fn next(&self) -> u64
        requires { key_at sync_part self.now.drawn < no_key }
        ensures { result ≡ key_at sync_part self.now.drawn }
    {
        4 * self.drawn + 1
    }

    /// It is drawn, for a request that is answered at once. It takes no memory.
    pub fn draw(&mut self)
        requires { key_at sync_part self.old.drawn < no_key }
        ensures { self.new ≡ record self.old { drawn = self.old.drawn + 1 } }
    {
        self.drawn += 1;
    }

    /// It is drawn for a request that waits. The answer is the key.
    pub fn wait(&mut self, it: Waiting) -> Result<u64, Memory>
        requires { key_at sync_part self.old.drawn < no_key }
        ensures key { IfOk result (λ key. key ≡ key_at sync_part self.old.drawn) }
        ensures after { OnOk result (self.new ≡ record {
          drawn = self.old.drawn + 1;
          waiting = self.old.waiting ++ (self.old.drawn, waiting_as it) ∷ [];
        }) }
    {
        let key = self.next();
        let place = self.drawn;
        self.drawn += 1;
        forget(self.waiting.insert(place, it)?);
        Ok(key)
    }

    /// What waits under the key at this place.
    pub fn find(&self, place: u64) -> Found
        ensures { result ≡ found_of (lookup (is_place place) self.now.waiting) }
    {
        match self.waiting.get(&place) {
            Some(it) => found_in(it),
            None => Found::Nothing,
        }
    }

    /// A request waits no more. It takes no memory.
    pub fn end(&mut self, place: u64)
        ensures { self.new ≡ record self.old {
          waiting = remove_entry (is_place place) self.old.waiting;
        } }
    {
        forget(self.waiting.remove(&place));
    }

    /// A request waits again, on another future. It takes no memory.
    pub fn wait_on(&mut self, place: u64, next: FutureId)
        ensures { (it : plain.Waiting) → lookup (is_place place) self.old.waiting ≡ Some it
            → self.new ≡ record self.old {
              waiting = set_value (is_place place) self.old.waiting (on_moved next it);
            } }
    {
        move_in(&mut self.waiting, place, next);
    }

    /// A request to put a value waits no more: the value.
    pub fn end_put(&mut self, place: u64) -> Option<Value>
        ensures value { (queue : ℕ) (value : AnyValue) (on : ℕ)
            → lookup (is_place place) self.old.waiting ≡ Some (plain.Puts queue value on)
            → result ≡ Some value }
        ensures after { self.new ≡ record self.old {
          waiting = remove_entry (is_place place) self.old.waiting;
        } }
    {
        let it = self.waiting.remove(&place);
        value_in(it)
    }
}
