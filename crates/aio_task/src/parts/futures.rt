//! The calls of the futures.
ghost use Rattle.std.specs.Prelude.{◌≡◌, ◌⊎◌, ◌++◌, [], ◌∷◌, false, None, IfOk, OnOk, OnErr, length, slice_get, slice_set, nat_lt, if◌then◌else◌};
ghost use Rattle.std.specs.Option.{option_copied};
ghost use Rattle.model_loop.specs.Parts as plain;
ghost use Rattle.model_loop.specs.Futures.{is_pending_at, outcome_at};
ghost use Rattle.model_loop.specs.Totals.{callbacks_at};
ghost use Rattle.model_loop.specs.Owning.{owner_at};
ghost use Rattle.algorithm_parts.specs.Released.{released};
ghost use Rattle.aio_ready.specs.Queue as queue;
ghost use Rattle.aio_future.specs.Kinds.{is_asked};
ghost use Rattle.aio_future.specs.Settled.{settled, called, registered, soon_if_done, asked};
ghost use Rattle.aio_task.specs.View.{is_step};

use super::Parts;
use aio_base::{Action, Memory, Outcome};
use aio_future::FutureId;
use aio_ready::Ticket;
use std::alloc::Global;

impl Parts {
    /// A pending future that stands for itself alone, and its number.
    pub fn new_plain(&mut self, alloc: Global) -> Result<FutureId, Memory>
        requires idle { self.old.called ≡ None }
        ensures number { IfOk result (λ id. id ≡ length self.old.futures) }
        ensures after { OnOk result (self.new ≡ record self.old {
          futures = self.old.futures
              ++ record { kind = plain.Plain; outcome = None; callbacks = [] } ∷ [];
        }) }
        ensures err { OnErr result (self.new ≡ self.old) }
    {
        self.body.futures.new_plain(alloc)
    }

    /// A pending future that stands for several, its members, and its number.
    pub fn new_many(&mut self, alloc: Global, members: Vec<FutureId>) -> Result<FutureId, Memory>
        requires idle { self.old.called ≡ None }
        ensures number { IfOk result (λ id. id ≡ length self.old.futures) }
        ensures after { OnOk result (self.new ≡ record self.old {
          futures = self.old.futures
              ++ record {
                kind = plain.Many members.items false;
                outcome = None;
                callbacks = [];
              } ∷ [];
        }) }
        ensures err { OnErr result (self.new ≡ self.old) }
    {
        self.stack.announce()?;
        self.notes.announce(self.body.futures.next())?;
        self.body.futures.new_many(alloc, members)
    }

    /// A pending future that is no task's gets its outcome, and its callbacks are called soon, in
    /// order of registration. A done one stays as it is: false.
    pub fn resolve(&mut self, id: FutureId, outcome: Outcome) -> bool
        requires idle { self.old.called ≡ None }
        requires no_task { owner_at (slice_get self.old.futures id) ≡ None }
        ensures answer { result ≡ is_pending_at (slice_get self.old.futures id) }
        ensures after { self.new ≡ record self.old {
          futures = settled id outcome self.old.futures;
          queue = queue.soon_all (called id self.old.futures) self.old.queue;
        } }
    {
        self.body.futures.resolve(id, outcome, &mut self.body.ready)
    }

    /// `add_done_callback`, of what is no step and no wakeup: of a pending future it waits, of a
    /// done one it is called soon.
    pub fn on_done(&mut self, id: FutureId, ticket: Ticket, action: Action)
        requires idle { self.old.called ≡ None }
        requires no_step { is_step action ≡ false }
        ensures { self.new ≡ record self.old {
          futures = registered id action self.old.futures;
          queue = soon_if_done id action self.old.futures self.old.queue;
        } }
    {
        self.body
            .futures
            .on_done(id, ticket, action, &mut self.body.ready);
    }

    /// Whether a future was made and is not done.
    pub fn is_pending(&self, id: FutureId) -> bool
        ensures { result ≡ is_pending_at (slice_get self.now.futures id) }
    {
        self.body.futures.is_pending(id)
    }

    /// How a future ended. `None` exactly where it is pending, or was not made.
    pub fn outcome(&self, id: FutureId) -> Option<&Outcome>
        ensures { option_copied result ≡ outcome_at (slice_get self.now.futures id) }
    {
        self.body.futures.outcome(id)
    }

    /// A future is released that is no task's, and is done or has no callbacks. From then on it
    /// stands as a done one without callbacks, and its memory is free.
    pub fn release(&mut self, id: FutureId)
        requires idle { self.old.called ≡ None }
        requires no_task { owner_at (slice_get self.old.futures id) ≡ None }
        requires over { (is_pending_at (slice_get self.old.futures id)
            ≡ false) ⊎ (callbacks_at (slice_get self.old.futures id) ≡ []) }
        ensures { self.new ≡ record self.old {
          futures = (if nat_lt id (length self.old.futures)
              then slice_set self.old.futures id released
              else self.old.futures);
        } }
    {
        self.body.futures.release(id);
        self.notes.forget(id);
    }

    /// A future that stands for several keeps that its cancel was asked for.
    /// Others stay as they are.
    pub fn mark_asked(&mut self, id: FutureId)
        requires idle { self.old.called ≡ None }
        ensures { self.new ≡ record self.old { futures = asked id self.old.futures } }
    {
        self.body.futures.mark_asked(id);
    }

    /// Whether the cancel of a future that stands for several was asked for,
    /// and a member answered true.
    pub fn asked(&self, id: FutureId) -> bool
        ensures { result ≡ is_asked (slice_get self.now.futures id) }
    {
        self.body.futures.asked(id)
    }
}
