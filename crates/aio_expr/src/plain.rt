//! Numbers and truths that are told at once, with no value made.
ghost use Rattle.std.specs.Prelude.{◌≡◌, Ok, IfSome};
ghost use Rattle.model_value.specs.Value.{Int, Truth};
ghost use Rattle.model_says.specs.Operations.{calculated};
ghost use Rattle.model_says.specs.Expressions.{value_of, constant_value};
ghost use Rattle.aio_syntax.specs.Constant.{constant_of};

use crate::env::Env;
use crate::flat_expr::FlatExpr;
use crate::operators::compared_numbers;
use aio_syntax::{Constant, ExprCase, Operator};

/// The number that an expression is, where it is a literal, a variable, or a sum, a difference or a
/// product of such. None tells nothing.
pub fn number_of(expr: &FlatExpr, env: &Env) -> Option<i64>
    ensures { IfSome result (λ number. value_of expr.now env.now ≡ Ok (Int number)) }
{
    match expr.case() {
        ExprCase::Calculate(operator, left, right) => {
            match (number_at(left, env), number_at(right, env)) {
                (Some(a), Some(b)) => number_calculated(operator, a, b),
                _ => None,
            }
        }
        _ => number_at(expr, env),
    }
}

/// Whether an expression is True, where literals and variables that are numbers are compared. None
/// tells nothing.
#[cycle(truth)]
pub fn truth_of(expr: &FlatExpr, env: &Env) -> Option<bool>
    ensures { IfSome result (λ t. value_of expr.now env.now ≡ Ok (Truth t)) }
{
    match expr.case() {
        ExprCase::Compare(comparison, left, right) => {
            match (number_at(left, env), number_at(right, env)) {
                (Some(a), Some(b)) => Some(compared_numbers(comparison, a, b)),
                _ => None,
            }
        }
        ExprCase::And(left, right) => match truth_of(left, env) {
            Some(true) => truth_of(right, env),
            Some(false) => Some(false),
            None => None,
        },
        ExprCase::Or(left, right) => match truth_of(left, env) {
            Some(true) => Some(true),
            Some(false) => truth_of(right, env),
            None => None,
        },
        _ => None,
    }
}

/// The number that an expression is, where it is a literal or a variable. None tells nothing.
pub fn number_at(expr: &FlatExpr, env: &Env) -> Option<i64>
    ensures { IfSome result (λ number. value_of expr.now env.now ≡ Ok (Int number)) }
{
    match expr.case() {
        ExprCase::Variable(local) => env.number(*local),
        ExprCase::Literal(constant) => number_in(constant),
        ExprCase::Or(_, _)
        | ExprCase::And(_, _)
        | ExprCase::Not(_)
        | ExprCase::Compare(_, _, _)
        | ExprCase::Calculate(_, _, _)
        | ExprCase::Negate(_)
        | ExprCase::Index(_, _)
        | ExprCase::List(_)
        | ExprCase::Apply(_, _)
        | ExprCase::MakeError(_, _) => None,
    }
}

fn number_in(constant: &Constant) -> Option<i64>
    ensures { IfSome result
        (λ number. constant_value (constant_of constant.now) ≡ Int number) }
{
    match constant {
        Constant::Int(number) => Some(*number),
        Constant::Nothing | Constant::Bool(_) | Constant::Text(_) | Constant::Bytes(_) => None,
    }
}

fn number_calculated(operator: Operator, left: i64, right: i64) -> Option<i64>
    ensures { IfSome result (λ n. calculated operator (Int left) (Int right) ≡ Ok (Int n)) }
{
    match operator {
        Operator::Add => left.checked_add(right),
        Operator::Subtract => left.checked_sub(right),
        Operator::Multiply => left.checked_mul(right),
        Operator::FloorDivide | Operator::Remainder => None,
    }
}
