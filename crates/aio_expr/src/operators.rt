//! What the operators give for values.
ghost use Rattle.std.specs.Prelude.{◌≡◌, Ok, IfOk, IfErr};
ghost use Rattle.model_value.specs.Value.{Int, Truth};
ghost use Rattle.model_says.specs.Operations.{sum, difference, product, quotient, remainder, calculated, negative, compared, negation, order};
ghost use Rattle.aio_expr.specs.declared.operation_fault.OperationFault.TheVariants.{BadOperand};
ghost use Rattle.aio_expr.specs.Gives.{Gives};

use crate::items::joined_lists;
use crate::joins::{joined_bytes, joined_texts, repeated_bytes, repeated_text};
use crate::numbers;
use crate::operation_fault::OperationFault;
use crate::order::order;
use aio_base::{Value, ValueCase, equal};
use aio_syntax::{Comparison, Operator};
use std::alloc::Global;
use std::cmp::Ordering;

/// An arithmetic operator with two operands.
#[inline(never)]
pub fn calculated(
    alloc: Global,
    operator: Operator,
    left: &Value,
    right: &Value,
) -> Result<Value, OperationFault>
    ensures { Gives (calculated operator left.now right.now) result }
{
    match operator {
        Operator::Add => sum(alloc, left, right),
        Operator::Subtract => difference(left, right),
        Operator::Multiply => product(alloc, left, right),
        Operator::FloorDivide => quotient(left, right),
        Operator::Remainder => remainder(left, right),
    }
}

/// An arithmetic operator with two numbers.
pub fn calculated_numbers(
    operator: Operator,
    left: i64,
    right: i64,
) -> Result<Value, OperationFault>
    ensures { Gives (calculated operator (Int left) (Int right)) result }
{
    match operator {
        Operator::Add => numbers::sum(left, right),
        Operator::Subtract => numbers::difference(left, right),
        Operator::Multiply => numbers::product(left, right),
        Operator::FloorDivide => numbers::quotient(left, right),
        Operator::Remainder => numbers::remainder(left, right),
    }
}

#[tactic(auto, using(law_value::proofs::Rows::rows))]
fn sum(alloc: Global, left: &Value, right: &Value) -> Result<Value, OperationFault>
    ensures { Gives (sum left.now right.now) result }
{
    match (left.case(), right.case()) {
        (ValueCase::Int(a), ValueCase::Int(b)) => numbers::sum(a, b),
        (ValueCase::Text(a), ValueCase::Text(b)) => joined_texts(alloc, a.as_str(), b.as_str()),
        (ValueCase::Bytes(a), ValueCase::Bytes(b)) => joined_bytes(
            alloc,
            a.as_slice(),
            b.as_slice(),
        ),
        (ValueCase::List(a), ValueCase::List(b)) => joined_lists(alloc, a.as_ref(), b.as_ref()),
        _ => Err(OperationFault::BadOperand),
    }
}

fn difference(left: &Value, right: &Value) -> Result<Value, OperationFault>
    ensures { Gives (difference left.now right.now) result }
{
    match (left.case(), right.case()) {
        (ValueCase::Int(a), ValueCase::Int(b)) => numbers::difference(a, b),
        _ => Err(OperationFault::BadOperand),
    }
}

fn product(alloc: Global, left: &Value, right: &Value) -> Result<Value, OperationFault>
    ensures { Gives (product left.now right.now) result }
{
    match (left.case(), right.case()) {
        (ValueCase::Int(a), ValueCase::Int(b)) => numbers::product(a, b),
        (ValueCase::Text(text), ValueCase::Int(count)) => repeated_text(
            alloc,
            text.as_str(),
            count,
        ),
        (ValueCase::Bytes(bytes), ValueCase::Int(count)) => repeated_bytes(
            alloc,
            bytes.as_slice(),
            count,
        ),
        _ => Err(OperationFault::BadOperand),
    }
}

fn quotient(left: &Value, right: &Value) -> Result<Value, OperationFault>
    ensures { Gives (quotient left.now right.now) result }
{
    match (left.case(), right.case()) {
        (ValueCase::Int(a), ValueCase::Int(b)) => numbers::quotient(a, b),
        _ => Err(OperationFault::BadOperand),
    }
}

fn remainder(left: &Value, right: &Value) -> Result<Value, OperationFault>
    ensures { Gives (remainder left.now right.now) result }
{
    match (left.case(), right.case()) {
        (ValueCase::Int(a), ValueCase::Int(b)) => numbers::remainder(a, b),
        _ => Err(OperationFault::BadOperand),
    }
}

/// A unary `-`.
pub fn negative(value: &Value) -> Result<Value, OperationFault>
    ensures { Gives (negative value.now) result }
{
    match value.case() {
        ValueCase::Int(number) => numbers::negative(number),
        _ => Err(OperationFault::BadOperand),
    }
}

/// `not`.
pub fn negation(value: &Value) -> Result<Value, OperationFault>
    ensures { Gives (negation value.now) result }
{
    match value.case() {
        ValueCase::Bool(truth) => Ok(Value::bool(!truth)),
        _ => Err(OperationFault::BadOperand),
    }
}

/// A comparison.
#[inline(never)]
pub fn compared(
    comparison: Comparison,
    left: &Value,
    right: &Value,
) -> Result<Value, OperationFault>
    ensures { Gives (compared comparison left.now right.now) result }
{
    match comparison {
        Comparison::Equal => Ok(Value::bool(equal(left, right))),
        Comparison::NotEqual => Ok(Value::bool(!equal(left, right))),
        Comparison::Less => Ok(Value::bool(ordering_of(left, right)?.is_lt())),
        Comparison::LessOrEqual => Ok(Value::bool(ordering_of(left, right)?.is_le())),
        Comparison::Greater => Ok(Value::bool(ordering_of(left, right)?.is_gt())),
        Comparison::GreaterOrEqual => Ok(Value::bool(ordering_of(left, right)?.is_ge())),
    }
}

/// A comparison of two numbers.
pub fn compared_numbers(comparison: Comparison, left: i64, right: i64) -> bool
    ensures { compared comparison (Int left) (Int right) ≡ Ok (Truth result) }
{
    match comparison {
        Comparison::Equal => left == right,
        Comparison::NotEqual => left != right,
        Comparison::Less => left.cmp(&right).is_lt(),
        Comparison::LessOrEqual => left.cmp(&right).is_le(),
        Comparison::Greater => left.cmp(&right).is_gt(),
        Comparison::GreaterOrEqual => left.cmp(&right).is_ge(),
    }
}

fn ordering_of(left: &Value, right: &Value) -> Result<Ordering, OperationFault>
    ensures ordered { IfOk result (λ ordering. order left.now right.now ≡ Some ordering) }
    ensures none { IfErr result
        (λ cause. (cause ≡ BadOperand) × (order left.now right.now ≡ None)) }
{
    match order(left, right) {
        Some(ordering) => Ok(ordering),
        None => Err(OperationFault::BadOperand),
    }
}
