//! The lanes of one child.
ghost use Rattle.std.specs.Prelude.{◌≡◌, true};
ghost use Rattle.aio_serving.specs.Heads.{has_lane};
ghost use Rattle.aio_lanes.specs.Given.{said_by, GivesTo};

use aio_lane::Head;
use aio_serving::Command;
use model_hub::{Giving, Pump};
use std::sync::Wait;

/// The heads of the lanes of a child that runs, and the run of its pumps.
#[derive(Drop)]
pub struct ChildLanes<Run> {
    pub stdin: Head,
    pub out: Head,
    pub errs: Head,
    pub run: Run,
}

impl<Run> ChildLanes<Run> {
    /// Gives a command to the lane of this pump.
    pub(crate) fn give<R: Wait>(&mut self, rt: &R, pump: Pump, command: Command) -> Giving
        requires { has_lane pump ≡ true }
        ensures gives { GivesTo pump command result self.old self.new }
    {
        match pump {
            Pump::Stdin => said_by(self.stdin.give(rt, command)),
            Pump::Out => said_by(self.out.give(rt, command)),
            Pump::Errs => said_by(self.errs.give(rt, command)),
            Pump::Exit => unreachable!(),
        }
    }
}

// What a head answered, without the command that came back.
fn said_by(answer: aio_lane::Giving) -> Giving
    ensures { result ≡ said_by answer }
{
    match answer {
        aio_lane::Giving::Given => Giving::Given,
        aio_lane::Giving::Full(_) => Giving::Full,
        aio_lane::Giving::Spent(_) => Giving::Spent,
    }
}
