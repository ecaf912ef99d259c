//! The timers that live.
ghost use Rattle.std.specs.Prelude.{◌≡◌, ◌+◌, ◌≤◌, IfOk, OnErr, IfSome, if◌then◌else◌};
ghost use Rattle.std.specs.List.{All};
ghost use Rattle.model_loop.specs.Parts as plain;
ghost use Rattle.aio_ready.specs.Queue.{cancelled};
ghost use Rattle.aio_ready.specs.declared.handle.HandleName.TheVariants as name;
ghost use Rattle.aio_timer.specs.Schedule.{no_timers, timer, placed_after, lives, without, first_when, due_at, later_than, fallen};

use crate::live::{Live, TimerHandle, TimerId};
use aio_base::{Action, Memory};
use aio_ready::{Ready, Ticket};
use std::alloc::Global;
use std::marker::Model;

/// A timer that could not be placed, for want of memory or of a number. The ticket comes back.
#[derive(Drop)]
pub struct Unplaced {
    pub ticket: Ticket,
    pub cause: Memory,
}

impl Unplaced {
    fn of(ticket: Ticket) -> Unplaced {
        let cause = Memory;
        Unplaced { ticket, cause }
    }
}

/// The timers that live. Contracts see them by deadline, equal ones in order of scheduling, and the
/// next number.
#[derive(Drop)]
pub struct Timers {
    live: Live,
}

impl Model for Timers {
    ghost use Rattle.aio_timer.specs.Schedule.{Schedule};

    ghost Value = { Schedule };

    ghost use Rattle.aio_timer.specs.Kept.{IsKept, timers_of};

    ghost view = { λ a. record { live = timers_of a.live; next = a.live.next } };

    ghost invariant = { λ a. IsKept a.live };
}

impl Timers {
    /// No timers.
    pub fn new(alloc: Global) -> Result<Timers, Memory>
        ensures { IfOk result (λ timers. timers ≡ no_timers) }
    {
        let live = Live::new(alloc);
        Ok(Timers { live })
    }

    /// `call_at`: a handle for a time, in milliseconds.
    pub fn at(
        &mut self,
        _alloc: Global,
        when: u64,
        ticket: Ticket,
        action: Action,
    ) -> Result<TimerId, Unplaced>
        ensures id { IfOk result (λ id. id ≡ record { number = self.old.next; when = when }) }
        ensures after { IfOk result (λ id. self.new ≡ record {
          live = placed_after (timer id action) self.old.live;
          next = self.old.next + 1;
        }) }
        ensures err { OnErr result (self.new ≡ self.old) }
    {
        match self.live.put(when, TimerHandle { action, ticket }) {
            Ok(id) => Ok(id),
            Err(refused) => Err(Unplaced::of(refused.ticket)),
        }
    }

    /// `TimerHandle.cancel`: a timer that lives is taken out; of one that fell due, the handle is
    /// cancelled.
    pub fn cancel(&mut self, id: TimerId, ready: &mut Ready)
        ensures timers { self.new ≡ record self.old { live = without id self.old.live } }
        ensures handle { ready.new
            ≡ (if lives id self.old.live then ready.old
            else cancelled (name.Timer id.number) ready.old) }
    {
        if !self.live.take(id) {
            ready.cancel_due(id.number);
        }
    }

    /// The earliest deadline. `None` exactly where no timer lives.
    pub fn earliest(&self) -> Option<u64>
        ensures first { result ≡ first_when self.now.live }
        ensures least { IfSome result (λ when.
            All (λ (timer : plain.Timer). when ≤ timer.when) self.now.live) }
    {
        self.live.first_when()
    }

    /// The timers whose time has come leave, and their handles are appended under their numbers, by
    /// deadline, and equal deadlines in order of scheduling.
    pub fn due(&mut self, now: u64, ready: &mut Ready)
        ensures timers { self.new ≡ record self.old { live = later_than now self.old.live } }
        ensures handles { ready.new ≡ fallen (due_at now self.old.live) ready.old }
    {
        while let Some((id, entry)) = self.live.pop_due(now) {
            ready.soon_due(entry.ticket, entry.action, id.number);
        }
    }
}
