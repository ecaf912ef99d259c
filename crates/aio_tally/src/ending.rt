//! What a turn came to, of a run that is counted.
ghost use Rattle.std.specs.Prelude.{◌≡◌};
ghost use Rattle.model_machine.specs.Outcomes.{end_of};
ghost use Rattle.model_program.specs.Transcript.{status_of};
ghost use Rattle.aio_tally.specs.Ending.{status_by, tasks_by};

use aio_base::Outcome;
use aio_core::Went;
use aio_wire::Stop;

/// Why a run was not counted.
#[derive(Clone, Copy, PartialEq, Eq)]
pub enum Uncounted {
    /// Memory was refused.
    Memory,
    /// The wire failed.
    Wire,
}

/// The exit status of a run that ended with a turn, and `None` where it goes on.
pub fn status_after(went: &Went) -> Result<Option<u8>, Uncounted>
    ensures { result ≡ status_by went.now }
{
    match went {
        Went::Went => Ok(None),
        Went::Finished(outcome) => Ok(Some(status_of(outcome))),
        Went::Stalled => Ok(Some(7)),
        Went::Runaway(_) => Ok(Some(8)),
        Went::Stopped(stop) => status_at(stop),
    }
}

fn status_of(outcome: &Outcome) -> u8
    ensures { result ≡ status_of (end_of outcome.now) }
{
    match outcome {
        Outcome::Value(_) => 0,
        Outcome::Failed(_) | Outcome::Cancelled => 1,
    }
}

fn status_at(stop: &Stop) -> Result<Option<u8>, Uncounted>
    ensures { result ≡ status_by (Went.Stopped stop.now) }
{
    match stop {
        Stop::Over(_) => Ok(Some(6)),
        Stop::Bad(_) => Ok(Some(4)),
        Stop::Mismatch(_, _) => Ok(Some(5)),
        Stop::Failed(_) => Err(Uncounted::Wire),
        Stop::Memory => Err(Uncounted::Memory),
    }
}

/// How many tasks a run made, of which there were so many before a turn and so many after it. A
/// turn that is cut short isn't counted.
pub fn tasks_after(went: &Went, before: u32, after: u32) -> u32
    ensures { result ≡ tasks_by went.now before after }
{
    match went {
        Went::Finished(_) => after,
        Went::Went => before,
        Went::Stalled => before,
        Went::Runaway(_) => before,
        Went::Stopped(_) => before,
    }
}
