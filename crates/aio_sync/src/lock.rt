//! One lock.
ghost use Rattle.std.specs.Prelude.{◌≡◌, ◌&&◌, [], ℕ, None, Some, true, false, not, IfOk, if◌then◌else◌};
ghost use Rattle.model_sync.specs.Synced.{wake_first, without};
ghost use Rattle.model_sync.specs.Locks.{take_lock};
ghost use Rattle.aio_task.specs.Keeps.{Known};
ghost use Rattle.aio_task.specs.View.{parts as parts_of};
ghost use Rattle.refine_added.specs.Seen.{SeesAll};
ghost use Rattle.aio_sync.specs.Tried.{Tries, truth_unless};
ghost use Rattle.aio_sync.specs.Woken.{are_free};

use crate::waiters::Waiters;
use aio_base::Memory;
use aio_task::{FutureId, Parts};
use std::alloc::Global;
use std::marker::Model;

/// Whether it is locked, and who waits for it. Contracts see it as the definitions have it.
#[derive(Drop)]
pub struct Lock {
    locked: bool,
    waiters: Waiters,
}

impl Model for Lock {
    ghost use Rattle.model_sync.specs.Synced.{Lock as PlainLock};
    ghost use Rattle.aio_sync.specs.Code.{coded_lock};

    ghost Value = { PlainLock };

    ghost coded = { coded_lock };

    ghost view = { λ a. record { locked = a.locked; waiters = a.waiters } };
}

impl Lock {
    /// It isn't locked, and nobody waits.
    pub fn new(alloc: Global) -> Lock
        ensures { result ≡ record { locked = false; waiters = [] } }
    {
        Lock {
            locked: false,
            waiters: Waiters::new(alloc),
        }
    }

    /// Whether it is locked. It takes no memory.
    pub fn is_locked(&self) -> bool
        ensures { result ≡ self.now.locked }
    {
        self.locked
    }

    // Whether it is locked as it is asked for: it isn't now, and nobody waits who wasn't cancelled.
    fn is_open(&self, parts: &Parts) -> bool
        ensures { (taken : ℕ) → result ≡ (not self.now.locked
            && Rattle.model_sync.specs.Locks.are_cancelled (parts_of parts.now) self.now.waiters) }
    {
        !self.locked && self.waiters.are_cancelled(parts)
    }

    /// Locks it at once, or waits for it: what is waited on.
    pub fn take(&mut self, alloc: Global, parts: &mut Parts) -> Result<Option<FutureId>, Memory>
        requires idle { parts.old.called ≡ None }
        requires free { are_free parts.old.futures self.old.waiters ≡ true }
        ensures { IfOk result (λ on. Tries self.new parts.old parts.new on (truth_unless on)
            (take_lock (parts_of parts.old) self.old)) }
    {
        if self.is_open(parts) {
            self.locked = true;
            return Ok(None);
        }
        let on = self.waiters.wait(alloc, parts)?;
        Ok(Some(on))
    }

    /// A waiter was woken, and locks it. It takes no memory.
    pub fn taken(&mut self, on: FutureId)
        ensures { self.new ≡ record { locked = true; waiters = without on self.old.waiters } }
    {
        self.locked = true;
        self.waiters.leave(on);
    }

    /// A waiter gives up. If it was cancelled where the lock isn't locked, the next is woken. It
    /// takes no memory.
    pub fn give_up(&mut self, on: FutureId, cancelled: bool, parts: &mut Parts)
        requires idle { parts.old.called ≡ None }
        requires free { are_free parts.old.futures self.old.waiters ≡ true }
        ensures after { self.new ≡ record self.old { waiters = without on self.old.waiters } }
        ensures steps { (known : ℕ → Known) → SeesAll known
            (if cancelled && not self.old.locked then wake_first (without on self.old.waiters)
            else []) parts.old parts.new }
    {
        self.waiters.leave(on);
        if cancelled && !self.locked {
            self.waiters.wake_first(parts);
        }
    }

    /// Unlocks it and wakes the first waiter; false exactly where it isn't locked, and nothing
    /// changes then. It takes no memory.
    pub fn release(&mut self, parts: &mut Parts) -> bool
        requires idle { parts.old.called ≡ None }
        requires free { are_free parts.old.futures self.old.waiters ≡ true }
        ensures was { result ≡ self.old.locked }
        ensures after { self.new ≡ record self.old { locked = false } }
        ensures steps { (known : ℕ → Known) → SeesAll known
            (if self.old.locked then wake_first self.old.waiters else []) parts.old parts.new }
    {
        if !self.locked {
            return false;
        }
        self.locked = false;
        self.waiters.wake_first(parts);
        true
    }
}
