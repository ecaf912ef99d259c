//! Futures on which tasks wait for the same, in order.
ghost use Rattle.std.specs.Prelude.{◌≡◌, ◌++◌, ◌∷◌, [], ℕ, None, true, IfOk, OnOk, length, map};
ghost use Rattle.std.specs.List.{list_all};
ghost use Rattle.std.specs.Prelude.{◌+◌};
ghost use Rattle.model_loop.specs.Parts as plain;
ghost use Rattle.model_sync.specs.Synced.{wakes, wake_first, without};
ghost use Rattle.model_sync.specs.Locks.{are_cancelled, was_cancelled as is_cancelled_so};
ghost use Rattle.model_sync.specs.Queues.{wake_next};
ghost use Rattle.model_loop.specs.Futures.{future_outcome};
ghost use Rattle.aio_task.specs.Keeps.{Known};
ghost use Rattle.aio_task.specs.View.{parts as parts_of};
ghost use Rattle.refine_added.specs.Seen.{SeesAll, made};
ghost use Rattle.aio_sync.specs.Woken.{are_free, is_free, woken};

use aio_base::{Memory, Outcome, Value};
use aio_task::{FutureId, Parts};
use std::alloc::Global;
use std::collections::BTreeSet;
use std::marker::Model;

/// The futures of those who wait, in order of asking: their numbers rise. Contracts see the list.
#[derive(Drop)]
pub struct Waiters {
    those: BTreeSet<FutureId>,
}

impl Model for Waiters {
    ghost use Rattle.std.specs.Prelude.{List, ℕ};
    ghost use Rattle.std.specs.List.Sorted.{IsStrictlySortedBy};
    ghost use Rattle.std.specs.Ordering.{nat_cmp};

    ghost Value = { List ℕ };

    ghost view = { λ a. a.those.keys };

    ghost invariant = { λ a. IsStrictlySortedBy nat_cmp a.those.keys };
}

fn was_cancelled(waiter: FutureId, parts: &Parts) -> bool
    ensures { result ≡ is_cancelled_so (future_outcome (parts_of parts.now) waiter) }
{
    match parts.outcome(waiter) {
        Some(Outcome::Cancelled) => true,
        Some(Outcome::Value(_)) => false,
        Some(Outcome::Failed(_)) => false,
        None => false,
    }
}

// Its future is resolved, unless it is done. It takes no memory.
fn wake(waiter: FutureId, parts: &mut Parts)
    requires idle { parts.old.called ≡ None }
    requires free { is_free parts.old.futures waiter ≡ true }
    ensures { parts.new ≡ woken waiter parts.old }
{
    let _was_pending = parts.resolve(waiter, Outcome::Value(Value::nothing()));
}

impl Waiters {
    /// Nobody waits.
    pub fn new(alloc: Global) -> Waiters
        ensures { result ≡ [] }
    {
        Waiters {
            those: BTreeSet::new(alloc),
        }
    }

    /// A future more, behind all others.
    pub fn wait(&mut self, alloc: Global, parts: &mut Parts) -> Result<FutureId, Memory>
        requires idle { parts.old.called ≡ None }
        requires free { are_free parts.old.futures self.old ≡ true }
        ensures on { IfOk result (λ on. on ≡ length parts.old.futures) }
        ensures after { OnOk result (self.new ≡ self.old ++ length parts.old.futures ∷ []) }
        ensures parts { OnOk result (parts.new ≡ made plain.Plain parts.old) }
    {
        let on = parts.new_plain(alloc)?;
        self.those.insert(on)?;
        Ok(on)
    }

    /// One waits no more, wherever it stands. It takes no memory.
    pub fn leave(&mut self, on: FutureId)
        ensures { self.new ≡ without on self.old }
    {
        let _was_there = self.those.remove(&on);
    }

    /// Whether each of them was cancelled.
    pub fn are_cancelled(&self, parts: &Parts) -> bool
        ensures { result ≡ are_cancelled (parts_of parts.now) self.now }
    {
        for waiter in self.those.iter() {
            if !was_cancelled(*waiter, parts) {
                return false;
            }
        }
        true
    }

    /// The first is woken, unless its future is done. It takes no memory.
    pub fn wake_first(&self, parts: &mut Parts)
        requires idle { parts.old.called ≡ None }
        requires free { are_free parts.old.futures self.now ≡ true }
        ensures steps { (known : ℕ → Known)
            → SeesAll known (wake_first self.now) parts.old parts.new }
    {
        if let Some(waiter) = self.those.first() {
            wake(*waiter, parts);
        }
    }

    /// All are woken whose futures aren't done, in order. It takes no memory.
    pub fn wake_all(&self, parts: &mut Parts)
        requires idle { parts.old.called ≡ None }
        requires free { are_free parts.old.futures self.now ≡ true }
        ensures steps { (known : ℕ → Known)
            → SeesAll known (map wakes self.now) parts.old parts.new }
    {
        for waiter in self.those.iter() {
            wake(*waiter, parts);
        }
    }

    /// The first whose future isn't done is woken, and it and all before it wait no more. It takes
    /// no memory.
    pub fn wake_next(&mut self, parts: &mut Parts)
        requires idle { parts.old.called ≡ None }
        requires free { are_free parts.old.futures self.old ≡ true }
        ensures left { self.new ≡ (wake_next (parts_of parts.old) self.old).left }
        ensures steps { (known : ℕ → Known)
            → SeesAll known (wake_next (parts_of parts.old) self.old).steps parts.old parts.new }
    {
        while let Some(waiter) = self.those.pop_first() {
            if parts.is_pending(waiter) {
                wake(waiter, parts);
                return;
            }
        }
    }
}
