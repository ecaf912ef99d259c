//! Futures that are settled in order.
ghost use Rattle.std.specs.Prelude.{◌≡◌, None, IfOk, OnOk};
ghost use Rattle.aio_exchange.specs.Ways.{changed_on};
ghost use Rattle.aio_change.specs.Owned.{AreOwn, settled_way};
ghost use Rattle.aio_change.specs.Seen.{seen_changed};

use aio_base::{Memory, Outcome};
use aio_task::{FutureId, Parts};

/// The same outcome once more.
pub fn copy_of_outcome(outcome: &Outcome) -> Result<Outcome, Memory>
    ensures { IfOk result (λ copy. copy ≡ outcome.now) }
{
    match outcome {
        Outcome::Value(value) => Ok(Outcome::Value(value.clone()?)),
        Outcome::Failed(fault) => Ok(Outcome::Failed(fault.clone()?)),
        Outcome::Cancelled => Ok(Outcome::Cancelled),
    }
}

/// Each of these futures, none of which is a task's, gets the outcome, in order, unless it is done.
pub fn settle_all(futures: &[FutureId], outcome: &Outcome, parts: &mut Parts) -> Result<(), Memory>
    requires idle { parts.old.called ≡ None }
    requires own { AreOwn parts.old futures.now }
    ensures after { OnOk result (parts.new
        ≡ changed_on seen_changed (settled_way outcome.now futures.now) parts.old) }
    ensures idle { parts.new.called ≡ None }
{
    for future in futures {
        let told = copy_of_outcome(outcome)?;
        let _was_pending = parts.resolve(*future, told);
    }
    Ok(())
}
