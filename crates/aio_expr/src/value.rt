//! The value of an expression, or why it has none.
ghost use Rattle.std.specs.Prelude.{◌≡◌, Ok, Some, IfOk, IfErr};
ghost use Rattle.model_value.specs.Value.{exception_of};
ghost use Rattle.model_says.specs.Expressions.{value_of};
ghost use Rattle.aio_expr.specs.Gives.{raised_for};
ghost use Rattle.aio_expr.specs.Raises.{Raises, IsFaultOf};

use crate::env::Env;
use crate::evaluate::evaluate;
use crate::flat_expr::FlatExpr;
use crate::operation_fault::OperationFault;
use aio_base::{Exc, Kind, Memory, Value, exception};
use std::alloc::Global;

/// Why an expression has no value: the exception that it raises, or want of memory.
#[derive(Drop)]
pub enum ExprFault {
    Raised(Exc),
    Memory,
}

/// The value of an expression, or the first exception from the left. A value that would be too
/// heavy is not built.
/// Source: the language reference, "Expressions".
pub fn value_of(alloc: Global, expr: &FlatExpr, env: &Env) -> Result<Value, ExprFault>
    ensures value { IfOk result (λ value. value_of expr.now env.now ≡ Ok value) }
    ensures raised { IfErr result (Raises (value_of expr.now env.now)) }
{
    match evaluate(alloc, expr, env) {
        Ok(value) => Ok(value),
        Err(cause) => Err(fault_of(alloc, cause)),
    }
}

fn fault_of(alloc: Global, cause: OperationFault) -> ExprFault
    ensures { IsFaultOf (raised_for cause) result }
{
    match cause {
        OperationFault::BadOperand => raised(alloc, Kind::TypeError, "bad operand"),
        OperationFault::OutOfRange => raised(alloc, Kind::OverflowError, "out of range"),
        OperationFault::DivisionByZero => raised(
            alloc,
            Kind::ZeroDivisionError,
            "division by zero",
        ),
        OperationFault::IndexOutOfRange => raised(alloc, Kind::IndexError, "index out of range"),
        OperationFault::NotUtf8 => raised(alloc, Kind::ValueError, "not UTF-8"),
        OperationFault::Memory => ExprFault::Memory,
    }
}

fn raised(alloc: Global, kind: Kind, text: &str) -> ExprFault
    ensures { IsFaultOf (Some (exception_of kind text.now)) result }
{
    match exception(alloc, kind, text) {
        Ok(exc) => ExprFault::Raised(exc),
        Err(Memory) => ExprFault::Memory,
    }
}
