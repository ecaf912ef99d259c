//! The lanes of the children, by their heads.
ghost use Rattle.std.specs.Prelude.{◌≡◌, true};
ghost use Rattle.aio_serving.specs.Heads.{HeadsSeen, Gives, has_lane};

use aio_base::Blob;
use model_hub::{Giving, Pump};
use std::sync::Wait;

/// A command to a pump, over the bytes of the code.
pub type Command = model_pump::Command<Blob>;

/// The heads of the lanes of all children that run.
pub trait Heads {
    /// Which children have lanes, what was given to each, and how many gives met a full one.
    ghost seen: { Self → HeadsSeen };

    /// Gives a command to the lane of this pump. It waits for no pump.
    fn give<R: Wait>(&mut self, rt: &R, child: u32, pump: Pump, command: Command) -> Giving
        requires has { (seen self.old).has child ≡ true }
        requires lane { has_lane pump ≡ true }
        ensures { Gives child pump command result (seen self.old) (seen self.new) };
}
