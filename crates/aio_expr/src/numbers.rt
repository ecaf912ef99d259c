//! Arithmetic of numbers.
ghost use Rattle.std.specs.Prelude.{◌≡◌, ◌+ℤ◌, ◌-ℤ◌, ◌*ℤ◌, neg_ℤ, pos, ◌≢◌};
ghost use Rattle.std.specs.Int.{NotMinOverMinusOne, w64};
ghost use Rattle.model_says.specs.Operations.{number, divided, floor_quotient, floor_remainder};
ghost use Rattle.aio_expr.specs.Gives.{Gives};
ghost use Rattle.aio_expr.specs.Rounding.{rounds_up};

use crate::operation_fault::OperationFault;
use aio_base::Value;

/// `a + b`; OverflowError past 64 bits.
pub fn sum(a: i64, b: i64) -> Result<Value, OperationFault>
    ensures { Gives (number (a +ℤ b)) result }
{
    match a.checked_add(b) {
        Some(sum) => Ok(Value::int(sum)),
        None => Err(OperationFault::OutOfRange),
    }
}

/// `a - b`; OverflowError past 64 bits.
pub fn difference(a: i64, b: i64) -> Result<Value, OperationFault>
    ensures { Gives (number (a -ℤ b)) result }
{
    match a.checked_sub(b) {
        Some(difference) => Ok(Value::int(difference)),
        None => Err(OperationFault::OutOfRange),
    }
}

/// `a * b`; OverflowError past 64 bits.
pub fn product(a: i64, b: i64) -> Result<Value, OperationFault>
    ensures { Gives (number (a *ℤ b)) result }
{
    match a.checked_mul(b) {
        Some(product) => Ok(Value::int(product)),
        None => Err(OperationFault::OutOfRange),
    }
}

/// `-a`; OverflowError of the least number.
pub fn negative(a: i64) -> Result<Value, OperationFault>
    ensures { Gives (number (neg_ℤ a)) result }
{
    match a.checked_neg() {
        Some(negative) => Ok(Value::int(negative)),
        None => Err(OperationFault::OutOfRange),
    }
}

/// The quotient, rounded down.
pub fn quotient(a: i64, b: i64) -> Result<Value, OperationFault>
    ensures { Gives (divided floor_quotient a b) result }
{
    if b == 0 {
        return Err(OperationFault::DivisionByZero);
    }
    match a.checked_div(b) {
        Some(toward_zero) if rounds_up(a, b) => Ok(Value::int(toward_zero - 1)),
        Some(toward_zero) => Ok(Value::int(toward_zero)),
        None => Err(OperationFault::OutOfRange),
    }
}

/// What the quotient, rounded down, times the divisor leaves.
pub fn remainder(a: i64, b: i64) -> Result<Value, OperationFault>
    ensures { Gives (divided floor_remainder a b) result }
{
    if b == 0 {
        return Err(OperationFault::DivisionByZero);
    }
    match a.checked_rem(b) {
        Some(left) if rounds_up(a, b) => Ok(Value::int(left + b)),
        Some(left) => Ok(Value::int(left)),
        None => Ok(Value::int(0)),
    }
}

/// Whether rounding a quotient toward zero rounds it up: it is below zero and no whole number.
fn rounds_up(a: i64, b: i64) -> bool
    requires divisor { b ≢ pos 0 }
    requires quotient { NotMinOverMinusOne w64 a b }
    ensures { result ≡ rounds_up a b }
{
    if a % b == 0 {
        return false;
    }
    if a < 0 { b > 0 } else { b < 0 }
}
