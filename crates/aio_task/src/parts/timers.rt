//! The calls of the timers.
ghost use Rattle.std.specs.Prelude.{◌≡◌, ◌+◌, ◌≤◌, false, None, IfOk, OnErr, IfSome, if◌then◌else◌};
ghost use Rattle.std.specs.List.{All};
ghost use Rattle.model_loop.specs.Parts as plain;
ghost use Rattle.aio_ready.specs.Queue as queue;
ghost use Rattle.aio_ready.specs.declared.handle.HandleName.TheVariants as name;
ghost use Rattle.aio_timer.specs.Schedule as schedule;
ghost use Rattle.aio_task.specs.View.{is_step};

use super::Parts;
use aio_base::Action;
use aio_ready::Ticket;
use aio_timer::{TimerId, Unplaced};
use std::alloc::Global;

impl Parts {
    /// `call_at`: a handle of what is no step and no wakeup for a time, in milliseconds.
    pub fn at(
        &mut self,
        alloc: Global,
        when: u64,
        ticket: Ticket,
        action: Action,
    ) -> Result<TimerId, Unplaced>
        requires idle { self.old.called ≡ None }
        requires no_step { is_step action ≡ false }
        ensures id { IfOk result
            (λ id. id ≡ record { number = self.old.schedule.next; when = when }) }
        ensures after { IfOk result (λ id. self.new ≡ record self.old {
          schedule = record {
            live = schedule.placed_after (schedule.timer id action) self.old.schedule.live;
            next = self.old.schedule.next + 1;
          };
        }) }
        ensures err { OnErr result (self.new ≡ self.old) }
    {
        self.timers.at(alloc, when, ticket, action)
    }

    /// A timer that lives is taken out; of one that fell due, the handle is cancelled.
    pub fn cancel_timer(&mut self, id: TimerId)
        requires idle { self.old.called ≡ None }
        ensures { self.new ≡ record self.old {
          schedule = record self.old.schedule { live = schedule.without id self.old.schedule.live };
          queue = (if schedule.lives id self.old.schedule.live then self.old.queue
              else queue.cancelled (name.Timer id.number) self.old.queue);
        } }
    {
        self.timers.cancel(id, &mut self.body.ready);
    }

    /// The earliest deadline. `None` exactly where no timer lives.
    pub fn earliest(&self) -> Option<u64>
        ensures first { result ≡ schedule.first_when self.now.schedule.live }
        ensures least { IfSome result
            (λ when. All (λ (timer : plain.Timer). when ≤ timer.when) self.now.schedule.live) }
    {
        self.timers.earliest()
    }

    /// The timers whose time has come leave, and their handles are appended under their numbers, by
    /// deadline, and equal deadlines in order of scheduling.
    pub fn due(&mut self, now: u64)
        requires idle { self.old.called ≡ None }
        ensures { self.new ≡ record self.old {
          schedule = record self.old.schedule {
            live = schedule.later_than now self.old.schedule.live;
          };
          queue = schedule.fallen (schedule.due_at now self.old.schedule.live) self.old.queue;
        } }
    {
        self.timers.due(now, &mut self.body.ready);
    }
}
