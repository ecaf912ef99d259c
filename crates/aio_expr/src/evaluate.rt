//! The evaluation of expressions.
ghost use Rattle.std.specs.Prelude.{◌≡◌, Ok, IfOk, IfErr, IfSome};
ghost use Rattle.model_value.specs.Value.{Value, Truth, Int};
ghost use Rattle.model_tree.specs.Syntax.{Or, And, Not, Compare, Calculate, Negate, Index, ListOf, Apply, MakeError, exprs};
ghost use Rattle.model_says.specs.Operations.{ValueOrException, truth};
ghost use Rattle.model_says.specs.Expressions.{value_of, values_of, constant_value, of_one, of_two};
ghost use Rattle.model_says.specs.Variables.{held};
ghost use Rattle.aio_syntax.specs.Constant.{constant_of};
ghost use Rattle.aio_expr.specs.Gives.{Gives, Fails, AllFail};

use crate::env::Env;
use crate::flat_expr::FlatExpr;
use crate::functions::{applied, error_made};
use crate::items::{indexed, list_of};
use crate::local::Local;
use crate::operation_fault::OperationFault;
use crate::operators::{
    calculated, calculated_numbers, compared, compared_numbers, negation, negative,
};
use crate::plain::number_at;
use aio_base::{Kind, Value, ValueCase};
use aio_syntax::{Comparison, Constant, ExprCase, Function, Operator};
use std::alloc::Global;

/// The value of an expression. Each case is a function of its own, so that an expression in an
/// expression takes little of the stack.
#[cycle(evaluate)]
pub fn evaluate(alloc: Global, expr: &FlatExpr, env: &Env) -> Result<Value, OperationFault>
    ensures { Gives (value_of expr.now env.now) result }
{
    match expr.case() {
        ExprCase::Or(left, right) => evaluate_or(alloc, left, right, env),
        ExprCase::And(left, right) => evaluate_and(alloc, left, right, env),
        ExprCase::Not(operand) => evaluate_not(alloc, operand, env),
        ExprCase::Compare(comparison, left, right) => {
            evaluate_compare(alloc, comparison, left, right, env)
        }
        ExprCase::Calculate(operator, left, right) => {
            evaluate_calculate(alloc, operator, left, right, env)
        }
        ExprCase::Negate(operand) => evaluate_negate(alloc, operand, env),
        ExprCase::Index(sequence, index) => evaluate_index(alloc, sequence, index, env),
        ExprCase::Literal(constant) => constant_value(constant),
        ExprCase::Variable(local) => variable_value(*local, env),
        ExprCase::List(items) => evaluate_list(alloc, items.items(), env),
        ExprCase::Apply(function, argument) => evaluate_apply(alloc, function, argument, env),
        ExprCase::MakeError(kind, message) => evaluate_error(alloc, kind, message, env),
    }
}

#[inline(never)]
#[cycle(evaluate)]
fn evaluate_or(
    alloc: Global,
    left: &FlatExpr,
    right: &FlatExpr,
    env: &Env,
) -> Result<Value, OperationFault>
    ensures { Gives (value_of (Or left.now right.now) env.now) result }
{
    let decided = is_true(alloc, left, env)? || is_true(alloc, right, env)?;
    Ok(Value::bool(decided))
}

#[inline(never)]
#[cycle(evaluate)]
fn evaluate_and(
    alloc: Global,
    left: &FlatExpr,
    right: &FlatExpr,
    env: &Env,
) -> Result<Value, OperationFault>
    ensures { Gives (value_of (And left.now right.now) env.now) result }
{
    let decided = is_true(alloc, left, env)? && is_true(alloc, right, env)?;
    Ok(Value::bool(decided))
}

#[inline(never)]
#[cycle(evaluate)]
fn evaluate_not(alloc: Global, operand: &FlatExpr, env: &Env) -> Result<Value, OperationFault>
    ensures { Gives (value_of (Not operand.now) env.now) result }
{
    negation(&evaluate(alloc, operand, env)?)
}

/// Two numbers that variables hold, or that are literals, are compared at once.
#[inline(never)]
#[cycle(evaluate)]
fn evaluate_compare(
    alloc: Global,
    comparison: Comparison,
    left: &FlatExpr,
    right: &FlatExpr,
    env: &Env,
) -> Result<Value, OperationFault>
    ensures { Gives (value_of (Compare comparison left.now right.now) env.now) result }
{
    match (number_at(left, env), number_at(right, env)) {
        (Some(a), Some(b)) => Ok(Value::bool(compared_numbers(comparison, a, b))),
        _ => compare_values(alloc, comparison, left, right, env),
    }
}

#[inline(never)]
#[cycle(evaluate)]
fn compare_values(
    alloc: Global,
    comparison: Comparison,
    left: &FlatExpr,
    right: &FlatExpr,
    env: &Env,
) -> Result<Value, OperationFault>
    ensures { Gives (value_of (Compare comparison left.now right.now) env.now) result }
{
    let (left, right) = evaluate_two(alloc, left, right, env)?;
    compared(comparison, &left, &right)
}

/// Two numbers that variables hold, or that are literals, are calculated with at once.
#[inline(never)]
#[cycle(evaluate)]
fn evaluate_calculate(
    alloc: Global,
    operator: Operator,
    left: &FlatExpr,
    right: &FlatExpr,
    env: &Env,
) -> Result<Value, OperationFault>
    ensures { Gives (value_of (Calculate operator left.now right.now) env.now) result }
{
    match (number_at(left, env), number_at(right, env)) {
        (Some(a), Some(b)) => calculated_numbers(operator, a, b),
        _ => calculate_values(alloc, operator, left, right, env),
    }
}

#[inline(never)]
#[cycle(evaluate)]
fn calculate_values(
    alloc: Global,
    operator: Operator,
    left: &FlatExpr,
    right: &FlatExpr,
    env: &Env,
) -> Result<Value, OperationFault>
    ensures { Gives (value_of (Calculate operator left.now right.now) env.now) result }
{
    let (left, right) = evaluate_two(alloc, left, right, env)?;
    calculated(alloc, operator, &left, &right)
}

#[inline(never)]
#[cycle(evaluate)]
fn evaluate_negate(alloc: Global, operand: &FlatExpr, env: &Env) -> Result<Value, OperationFault>
    ensures { Gives (value_of (Negate operand.now) env.now) result }
{
    negative(&evaluate(alloc, operand, env)?)
}

#[inline(never)]
#[cycle(evaluate)]
fn evaluate_index(
    alloc: Global,
    sequence: &FlatExpr,
    index: &FlatExpr,
    env: &Env,
) -> Result<Value, OperationFault>
    ensures { Gives (value_of (Index sequence.now index.now) env.now) result }
{
    let (sequence, index) = evaluate_two(alloc, sequence, index, env)?;
    indexed(&sequence, &index)
}

#[inline(never)]
#[cycle(evaluate)]
fn evaluate_list(alloc: Global, items: &[FlatExpr], env: &Env) -> Result<Value, OperationFault>
    ensures { Gives (value_of (ListOf (exprs items.now)) env.now) result }
{
    list_of(alloc, evaluate_all(alloc, items, env)?)
}

#[inline(never)]
#[cycle(evaluate)]
fn evaluate_apply(
    alloc: Global,
    function: Function,
    argument: &FlatExpr,
    env: &Env,
) -> Result<Value, OperationFault>
    ensures { Gives (value_of (Apply function argument.now) env.now) result }
{
    applied(alloc, function, &evaluate(alloc, argument, env)?)
}

#[inline(never)]
#[cycle(evaluate)]
fn evaluate_error(
    alloc: Global,
    kind: Kind,
    message: &FlatExpr,
    env: &Env,
) -> Result<Value, OperationFault>
    ensures { Gives (value_of (MakeError kind message.now) env.now) result }
{
    error_made(alloc, kind, &evaluate(alloc, message, env)?)
}

/// The values of two expressions, of which the left one comes first.
#[cycle(evaluate)]
fn evaluate_two(
    alloc: Global,
    left: &FlatExpr,
    right: &FlatExpr,
    env: &Env,
) -> Result<(Value, Value), OperationFault>
    ensures left { IfOk result (λ pair. value_of left.now env.now ≡ Ok pair.0) }
    ensures right { IfOk result (λ pair. value_of right.now env.now ≡ Ok pair.1) }
    ensures fault { IfErr result
        (λ cause. (operation : Value → Value → ValueOrException)
        → Fails (of_two operation (value_of left.now env.now) (value_of right.now env.now)) cause) }
{
    let left = evaluate(alloc, left, env)?;
    let right = evaluate(alloc, right, env)?;
    Ok((left, right))
}

/// Whether an expression is True. One that is neither True nor False is a bad operand.
#[cycle(evaluate)]
fn is_true(alloc: Global, expr: &FlatExpr, env: &Env) -> Result<bool, OperationFault>
    ensures truth { IfOk result (λ t. value_of expr.now env.now ≡ Ok (Truth t)) }
    ensures fault { IfErr result (Fails (of_one truth (value_of expr.now env.now))) }
{
    truth_of(&evaluate(alloc, expr, env)?)
}

/// The values of expressions in order.
#[cycle(evaluate)]
fn evaluate_all(alloc: Global, items: &[FlatExpr], env: &Env) -> Result<Vec<Value>, OperationFault>
    ensures values { IfOk result (λ found. values_of (exprs items.now) env.now ≡ Ok found.items) }
    ensures fault { IfErr result (AllFail (values_of (exprs items.now) env.now)) }
{
    let mut found = Vec::new(alloc);
    for item in items {
        found.push(evaluate(alloc, item, env)?)?;
    }
    Ok(found)
}

fn truth_of(value: &Value) -> Result<bool, OperationFault>
    ensures truth { IfOk result (λ t. value.now ≡ Truth t) }
    ensures fault { IfErr result (Fails (truth value.now)) }
{
    match value.case() {
        ValueCase::Bool(truth) => Ok(truth),
        _ => Err(OperationFault::BadOperand),
    }
}

/// What a variable holds.
#[inline(never)]
fn variable_value(local: Local, env: &Env) -> Result<Value, OperationFault>
    ensures { Gives (Ok (held env.now local)) result }
{
    Ok(env.held(local)?)
}

/// What a literal, `True`, `False` or `None` stands for.
#[inline(never)]
fn constant_value(constant: &Constant) -> Result<Value, OperationFault>
    ensures { Gives (Ok (constant_value (constant_of constant.now))) result }
{
    match constant {
        Constant::Nothing => Ok(Value::nothing()),
        Constant::Bool(truth) => Ok(Value::bool(*truth)),
        Constant::Int(number) => Ok(Value::int(*number)),
        Constant::Text(text) => Ok(Value::text(text.clone()?)),
        Constant::Bytes(bytes) => Ok(Value::bytes(bytes.clone()?)),
    }
}
