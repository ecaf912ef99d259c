//! What becomes of a task that is to be made in a group.
ghost use Rattle.std.specs.Prelude.{◌≡◌, IfOk, option_map};
ghost use Rattle.model_loop.specs.Groups.{refusal_exception};
ghost use Rattle.aio_group.specs.Answers.{refusal_in};

use aio_base::{Exc, Kind, Memory, exception};
use std::alloc::Global;

/// A task is made, or why none is: the first cause that holds.
#[derive(Clone, Copy, PartialEq, Eq)]
pub enum Created {
    Task(u32),
    NotEntered,
    /// The exit has begun, and no task is left.
    Finished,
    /// The group cancels its tasks.
    ShuttingDown,
}

impl Created {
    /// What a refused call raises.
    pub fn fault(&self, alloc: Global) -> Result<Option<Exc>, Memory>
        ensures { IfOk result (λ fault. fault
            ≡ option_map refusal_exception (refusal_in self.now)) }
    {
        let text = match self {
            Created::Task(_) => return Ok(None),
            Created::NotEntered => "TaskGroup has not been entered",
            Created::Finished => "TaskGroup is finished",
            Created::ShuttingDown => "TaskGroup is shutting down",
        };
        let fault = exception(alloc, Kind::RuntimeError, text)?;
        Ok(Some(fault))
    }
}
