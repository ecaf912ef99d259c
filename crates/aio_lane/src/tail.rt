//! The end of a lane that receives.
ghost use Rattle.std.specs.Prelude.{◌≡◌, [], true};
ghost use Rattle.crossbeam_queue.specs.Passes.{view};
ghost use Rattle.aio_lane.specs.Ends.{received, may_receive, tail_seen};

use crate::between::Between;
use crate::command::Command;
use crate::track::{LanePass, Takes};
use std::alloc::Global;
use std::marker::Model;
use std::sync::{Arc, Wait};
use std::time::Clock;

/// The end that receives. Contracts see the lane that it belongs to, and what it received.
#[derive(Drop)]
pub struct Tail {
    pub(crate) between: Arc<Between, Global>,
    pub(crate) pass: LanePass,
}

impl Model for Tail {
    ghost use Rattle.std.specs.Arc.{arc_value};
    ghost use Rattle.crossbeam_queue.specs.Passes.{IsPassOf};
    ghost use Rattle.aio_lane.specs.Ends.{TailSeen, tail_seen, IsTail};

    ghost Value = { TailSeen };

    ghost view = { λ tail. tail_seen tail.pass };

    ghost invariant = { λ tail. IsPassOf (arc_value tail.between).queue tail.pass × IsTail tail.pass };
}

impl Tail {
    /// Waits for a command, and takes the first.
    pub fn next<R: Wait>(&mut self, rt: &R) -> Command
        ensures { self.new ≡ received self.old result }
    {
        for _ in rt.forever() {
            let seen = self.between.parker.now(rt);
            if let Some(command) = self.between.queue.pop_as::<Takes, R>(rt, &mut self.pass) {
                return command;
            }
            self.between.parker.park(rt, seen);
        }
        unreachable!()
    }

    /// Waits for a command for so many milliseconds at most, and takes the first. None where none came
    /// by then.
    pub fn next_within<R: Wait + Clock>(&mut self, rt: &R, pause: u64) -> Option<Command>
        ensures { self.new ≡ may_receive self.old result }
    {
        let seen = self.between.parker.now(rt);
        match self.take(rt) {
            Some(command) => Some(command),
            None => {
                self.between.parker.park_for(rt, seen, pause);
                self.take(rt)
            }
        }
    }

    // The first command that stands in the lane, where one does.
    fn take<R: Wait>(&mut self, rt: &R) -> Option<Command>
        ensures { self.new ≡ may_receive self.old result }
    {
        self.between.queue.pop_as::<Takes, R>(rt, &mut self.pass)
    }

    /// Its pass on the lane's queue. Its view keeps what this tail received.
    pub fn pass(&self) -> &LanePass
        ensures named { (result.now.table_id ≡ self.now.lane) × (result.now.me.1 ≡ []) }
        ensures taken { (view result.now).taken ≡ self.now.taken }
    {
        &self.pass
    }

    // Its pass, for the head that takes it back.
    pub(crate) fn into_pass(self) -> LanePass
        ensures seen { tail_seen result ≡ self }
        ensures takes { (view result).takes ≡ true }
        ensures empty { result.me.1 ≡ [] }
    {
        let Tail { between: _, pass } = self;
        pass
    }
}
