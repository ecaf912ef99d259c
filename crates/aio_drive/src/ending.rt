//! How runs end, and their exit status.
ghost use Rattle.std.specs.Prelude.{◌≡◌};
ghost use Rattle.model_machine.specs.Outcomes.{end_of};
ghost use Rattle.model_program.specs.Transcript.{status_of};

use aio_base::Outcome;
use aio_trace::End;

/// How a run ends whose main task ended so.
pub fn end_of(outcome: Outcome) -> End
    ensures { result ≡ end_of outcome }
{
    match outcome {
        Outcome::Value(value) => End::Returned(value),
        Outcome::Failed(fault) => End::Raised(fault),
        Outcome::Cancelled => End::Cancelled,
    }
}

/// The exit status of a run that ended so.
pub fn status_of(end: &End) -> u8
    ensures { result ≡ status_of end.now }
{
    match end {
        End::Returned(_) => 0,
        End::Raised(_) | End::Cancelled => 1,
        End::WordsRefused => 2,
        End::ScriptRefused { .. } => 3,
        End::JournalRefused { .. } => 4,
        End::Mismatch { .. } => 5,
        End::Over(_) => 6,
        End::Stalled => 7,
        End::Runaway(_) => 8,
        End::ShelfFault | End::WireFault => 9,
        End::Turns(_) => 10,
    }
}
