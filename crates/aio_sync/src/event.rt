//! One event.
ghost use Rattle.std.specs.Prelude.{◌≡◌, [], ℕ, None, true, false, IfOk, map, if◌then◌else◌};
ghost use Rattle.model_sync.specs.Synced.{wakes, without};
ghost use Rattle.model_sync.specs.Events.{see_event};
ghost use Rattle.aio_task.specs.Keeps.{Known};
ghost use Rattle.aio_task.specs.View.{parts as parts_of};
ghost use Rattle.refine_added.specs.Seen.{SeesAll};
ghost use Rattle.aio_sync.specs.Tried.{Tries, truth_unless};
ghost use Rattle.aio_sync.specs.Woken.{are_free};

use crate::waiters::Waiters;
use aio_base::Memory;
use aio_task::{FutureId, Parts};
use std::alloc::Global;
use std::marker::Model;

/// Whether it is set, and who waits for it. Contracts see it as the definitions have it.
#[derive(Drop)]
pub struct Event {
    is_set: bool,
    waiters: Waiters,
}

impl Model for Event {
    ghost use Rattle.model_sync.specs.Synced.{Event as PlainEvent};
    ghost use Rattle.aio_sync.specs.Code.{coded_event};

    ghost Value = { PlainEvent };

    ghost coded = { coded_event };

    ghost view = { λ a. record { is_set = a.is_set; waiters = a.waiters } };
}

impl Event {
    /// It isn't set, and nobody waits.
    pub fn new(alloc: Global) -> Event
        ensures { result ≡ record { is_set = false; waiters = [] } }
    {
        Event {
            is_set: false,
            waiters: Waiters::new(alloc),
        }
    }

    /// Whether it is set. It takes no memory.
    pub fn is_set(&self) -> bool
        ensures { result ≡ self.now.is_set }
    {
        self.is_set
    }

    /// Sets it, and wakes all who wait, where it isn't set. It takes no memory.
    pub fn set(&mut self, parts: &mut Parts)
        requires idle { parts.old.called ≡ None }
        requires free { are_free parts.old.futures self.old.waiters ≡ true }
        ensures after { self.new ≡ record self.old { is_set = true } }
        ensures steps { (known : ℕ → Known) → SeesAll known
            (if self.old.is_set then [] else map wakes self.old.waiters) parts.old parts.new }
    {
        if self.is_set {
            return;
        }
        self.is_set = true;
        self.waiters.wake_all(parts);
    }

    /// From now on it isn't set. It takes no memory.
    pub fn clear(&mut self)
        ensures { self.new ≡ record self.old { is_set = false } }
    {
        self.is_set = false;
    }

    /// Goes on where it is set, or waits for it: what is waited on.
    pub fn see(&mut self, alloc: Global, parts: &mut Parts) -> Result<Option<FutureId>, Memory>
        requires idle { parts.old.called ≡ None }
        requires free { are_free parts.old.futures self.old.waiters ≡ true }
        ensures { IfOk result (λ on. Tries self.new parts.old parts.new on (truth_unless on)
            (see_event (parts_of parts.old) self.old)) }
    {
        if self.is_set {
            return Ok(None);
        }
        let on = self.waiters.wait(alloc, parts)?;
        Ok(Some(on))
    }

    /// A waiter goes on, or gives up. It takes no memory.
    pub fn leave(&mut self, on: FutureId)
        ensures { self.new ≡ record self.old { waiters = without on self.old.waiters } }
    {
        self.waiters.leave(on);
    }
}
