//! The end of a lane that gives.
ghost use Rattle.std.specs.Prelude.{◌≡◌, [], ◌≤◌, ◌^◌, length};
ghost use mathlib.Core.List.{IsPrefix};
ghost use Rattle.crossbeam_queue.specs.Passes.{view, IsPassOf, ruled_capacity};
ghost use Rattle.aio_lane.specs.Ends.{GiveAnswers};

use crate::between::Between;
use crate::command::{Command, Giving};
use crate::tail::Tail;
use crate::track::{CommandQueue, Counts, Ends, Gives, LanePass, Settles};
use std::alloc::Global;
use std::marker::Model;
use std::sync::{Arc, Wait};

/// How many commands one head gives at most. The queue's own bound is higher.
const MOST: u64 = 1 << 61;

/// The end that gives. Contracts see the lane that it belongs to, what it gave, and how many of its gives met a full
/// lane.
#[derive(Drop)]
pub struct Head {
    pub(crate) between: Arc<Between, Global>,
    pub(crate) pass: LanePass,
    pub(crate) gave: u64,
}

impl Model for Head {
    ghost use Rattle.std.specs.Prelude.{◌≡◌};
    ghost use Rattle.std.specs.Arc.{arc_value};
    ghost use Rattle.crossbeam_queue.specs.Passes.{IsPassOf, ruled_capacity};
    ghost use Rattle.aio_lane.specs.Ends.{HeadSeen, head_seen, IsHead};

    ghost Value = { HeadSeen };

    ghost view = { λ head. head_seen head.pass };

    ghost invariant = { λ head. IsPassOf (arc_value head.between).queue head.pass
        × (ruled_capacity (arc_value head.between).queue ≡ 8) × IsHead head.gave head.pass };
}

impl Head {
    /// Gives a command, where there is room, and wakes the tail. It waits for no command.
    pub fn give<R: Wait>(&mut self, rt: &R, command: Command) -> Giving
        ensures { GiveAnswers self.old command result self.new }
    {
        if self.gave == MOST {
            return Giving::Spent(command);
        }
        match self
            .between
            .queue
            .push_as::<Gives, R>(rt, &mut self.pass, command)
        {
            Ok(()) => {
                self.gave += 1;
                self.between.parker.wake(rt);
                Giving::Given
            }
            Err(back) => {
                let _idle = self.between.queue.another::<Counts>(&mut self.pass);
                Giving::Full(back)
            }
        }
    }

    /// The lane's queue.
    pub fn queue(&self) -> &CommandQueue
        ensures named { result.now.table.shared.table_id ≡ self.now.lane }
        ensures sized { ruled_capacity result.now ≡ 8 }
    {
        &self.between.queue
    }

    /// Its pass on the lane's queue. Its view keeps what this head gave.
    pub fn pass(&self) -> &LanePass
        ensures named { (result.now.table_id ≡ self.now.lane) × (result.now.me.1 ≡ []) }
        ensures given { (view result.now).given ≡ self.now.given }
        ensures fulls { (view result.now).fulls ≡ self.now.fulls }
    {
        &self.pass
    }

    /// Takes the tail of this lane back. What it received is a prefix of what this head gave.
    pub fn settle<R>(self, _rt: &R, tail: Tail)
        requires { tail.lane ≡ self.lane }
        ensures { IsPrefix tail.taken self.given }
    {
        let Head {
            between,
            mut pass,
            gave: _,
        } = self;
        let other = tail.into_pass();
        between.queue.absorb::<Ends>(&mut pass, other);
        between.queue.learn_as::<Settles>(&mut pass);
    }
}
