//! What a turn comes to.
ghost use Rattle.std.specs.Prelude.{◌≡◌, IfOk};

use aio_base::{Memory, Outcome};
use aio_wire::{Stop, copy_of_call};
use std::alloc::Global;

/// What a turn comes to: the run goes on, or how it ended.
#[derive(Drop)]
pub enum Went {
    Went,
    /// Main is done, in this way, and no task lives.
    Finished(Outcome),
    /// Nothing is pending, and nothing can come.
    Stalled,
    /// One statement more would begin in a step of this task than a step may have.
    Runaway(u32),
    /// A call of the outside has no answer that fits.
    Stopped(Stop),
}

impl Went {
    /// A copy of it.
    pub fn copy(&self, alloc: Global) -> Result<Went, Memory>
        ensures { IfOk result (λ copy. copy ≡ self.now) }
    {
        match self {
            Went::Went => Ok(Went::Went),
            Went::Finished(outcome) => Ok(Went::Finished(copy_of_outcome(outcome)?)),
            Went::Stalled => Ok(Went::Stalled),
            Went::Runaway(task) => Ok(Went::Runaway(*task)),
            Went::Stopped(stop) => Ok(Went::Stopped(copy_of_stop(alloc, stop)?)),
        }
    }
}

/// A copy of an outcome.
pub fn copy_of_outcome(outcome: &Outcome) -> Result<Outcome, Memory>
    ensures { IfOk result (λ copy. copy ≡ outcome.now) }
{
    match outcome {
        Outcome::Value(value) => Ok(Outcome::Value(value.clone()?)),
        Outcome::Failed(fault) => Ok(Outcome::Failed(fault.clone()?)),
        Outcome::Cancelled => Ok(Outcome::Cancelled),
    }
}

fn copy_of_stop(alloc: Global, stop: &Stop) -> Result<Stop, Memory>
    ensures { IfOk result (λ copy. copy ≡ stop.now) }
{
    match stop {
        Stop::Over(call) => Ok(Stop::Over(copy_of_call(alloc, call)?)),
        Stop::Bad(fault) => Ok(Stop::Bad(*fault)),
        Stop::Mismatch(count, call) => Ok(Stop::Mismatch(*count, copy_of_call(alloc, call)?)),
        Stop::Failed(call) => Ok(Stop::Failed(copy_of_call(alloc, call)?)),
        Stop::Memory => Ok(Stop::Memory),
    }
}
