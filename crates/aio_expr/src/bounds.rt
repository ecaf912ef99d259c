//! The bounds of computed values.
ghost use Rattle.model_says.specs.Operations.{bounded};
ghost use Rattle.aio_expr.specs.Gives.{Gives};

use crate::operation_fault::OperationFault;
use aio_base::{Value, depth, weight};

/// The greatest weight of a computed value.
pub const HEAVIEST: u64 = 1_048_576;

/// The greatest depth of a computed value.
pub const DEEPEST: u64 = 64;

/// The value, unless it is too heavy or too deep.
pub fn bounded(value: Value) -> Result<Value, OperationFault>
    ensures { Gives (bounded value) result }
{
    if weight(&value) > HEAVIEST || depth(&value) > DEEPEST {
        return Err(OperationFault::OutOfRange);
    }
    Ok(value)
}
