//! The calls of the queue.
ghost use Rattle.std.specs.Prelude.{◌≡◌, ◌++◌, false, None};
ghost use Rattle.std.specs.Option.{option_map};
ghost use Rattle.aio_ready.specs.Queue as queue;
ghost use Rattle.aio_task.specs.View.{stepped_at, is_step, NamesNoStep};

use super::Parts;
use crate::running::stepped;
use aio_base::{Action, Memory};
use aio_ready::{HandleId, Ticket};
use std::alloc::Global;

impl Parts {
    /// All the memory of one handle.
    pub fn ticket(&mut self, alloc: Global) -> Result<Ticket, Memory>
        ensures { self.new ≡ self.old }
    {
        self.body.ready.ticket(alloc)
    }

    /// `call_soon`, of what is no step and no wakeup.
    /// Where no number is left, a cancel of the answer does nothing.
    pub fn soon(&mut self, ticket: Ticket, action: Action) -> HandleId
        requires idle { self.old.called ≡ None }
        requires no_step { is_step action ≡ false }
        ensures after { self.new ≡ record self.old { queue = queue.soon action self.old.queue } }
        ensures name { result.name ≡ queue.next_name self.old.queue }
    {
        self.body.ready.soon(ticket, action)
    }

    /// How many numbers `soon` gave, those of steps and callbacks among them.
    pub fn given(&self) -> u64
        ensures { result ≡ self.now.queue.given }
    {
        self.body.ready.given()
    }

    /// A handle that `soon` gave keeps its place, and does nothing.
    /// One that ran, or was cancelled, is as it was.
    pub fn cancel_handle(&mut self, handle: HandleId)
        requires idle { self.old.called ≡ None }
        requires no_step { NamesNoStep handle.name self.old.queue }
        ensures { self.new
            ≡ record self.old { queue = queue.cancelled handle.name self.old.queue } }
    {
        self.body.ready.cancel(handle);
    }

    /// Whether nothing is pending. Cancelled handles count.
    pub fn is_empty(&self) -> bool
        ensures { result ≡ queue.is_empty (self.now.queue.below ++ self.now.queue.after) }
    {
        self.body.ready.is_empty()
    }

    /// All that is pending stands before the bar.
    pub fn set_bar(&mut self)
        requires idle { self.old.called ≡ None }
        ensures { self.new ≡ record self.old { queue = queue.barred self.old.queue } }
    {
        self.body.ready.set_bar();
    }

    /// What runs next before the bar, with its memory. Where it is a step or a wakeup, its task
    /// counts as the running one until `begin_step`,
    /// and no other call changes the parts before that.
    pub fn next_below(&mut self) -> Option<(Action, Ticket)>
        requires idle { self.old.called ≡ None }
        ensures action { option_map (λ next. next.0) result ≡ queue.next_action self.old.queue }
        ensures after { self.new ≡ record self.old {
          queue = queue.taken self.old.queue;
          called = stepped_at (queue.next_action self.old.queue);
        } }
    {
        let next = self.body.ready.next_below()?;
        self.called = stepped(&next.0);
        Some(next)
    }
}
