//! Expressions, whose variables get their numbers. Texts are shared with the program, and not
//! copied.
ghost use Rattle.std.specs.Prelude.{◌≡◌, IfOk, map};
ghost use Rattle.algorithm_locals.specs.Numbered.{numbered_expr};
ghost use Rattle.aio_syntax.specs.Constant.{constant_of};

use crate::numbers::Numbers;
use aio_base::Memory;
use aio_expr::{FlatExpr, FlatExprList};
use aio_syntax::{Constant, Expr, ExprCase};
use std::alloc::Global;

/// The same expression over numbers.
#[cycle(flat)]
#[tactic(auto, using(crate::proofs::Rows::numbered_row))]
pub fn flat_expr(alloc: Global, numbers: &Numbers, expr: &Expr) -> Result<FlatExpr, Memory>
    ensures { IfOk result (λ made. made ≡ numbered_expr numbers.now expr.now) }
{
    match expr.case() {
        ExprCase::Or(left, right) => {
            let (left, right) = boxed_two(alloc, numbers, left, right)?;
            Ok(FlatExpr::or(left, right))
        }
        ExprCase::And(left, right) => {
            let (left, right) = boxed_two(alloc, numbers, left, right)?;
            Ok(FlatExpr::and(left, right))
        }
        ExprCase::Not(operand) => Ok(FlatExpr::not(boxed(alloc, numbers, operand)?)),
        ExprCase::Compare(comparison, left, right) => {
            let (left, right) = boxed_two(alloc, numbers, left, right)?;
            Ok(FlatExpr::compare(comparison, left, right))
        }
        ExprCase::Calculate(operator, left, right) => {
            let (left, right) = boxed_two(alloc, numbers, left, right)?;
            Ok(FlatExpr::calculate(operator, left, right))
        }
        ExprCase::Negate(operand) => Ok(FlatExpr::negate(boxed(alloc, numbers, operand)?)),
        ExprCase::Index(sequence, index) => {
            let (sequence, index) = boxed_two(alloc, numbers, sequence, index)?;
            Ok(FlatExpr::index(sequence, index))
        }
        ExprCase::Literal(constant) => Ok(FlatExpr::literal(constant_copy(constant)?)),
        ExprCase::Variable(name) => {
            Ok(FlatExpr::variable(numbers.local_of(name.text().as_str())))
        }
        ExprCase::List(items) => {
            let items = flat_exprs(alloc, numbers, items.items())?;
            Ok(FlatExpr::list(items))
        }
        ExprCase::Apply(function, argument) => {
            let argument = boxed(alloc, numbers, argument)?;
            Ok(FlatExpr::apply(function, argument))
        }
        ExprCase::MakeError(kind, message) => {
            let message = boxed(alloc, numbers, message)?;
            Ok(FlatExpr::make_error(kind, message))
        }
    }
}

#[cycle(flat)]
fn boxed(alloc: Global, numbers: &Numbers, expr: &Expr) -> Result<Box<FlatExpr>, Memory>
    ensures { IfOk result (λ made. made.value ≡ numbered_expr numbers.now expr.now) }
{
    let made = flat_expr(alloc, numbers, expr)?;
    Ok(Box::new(alloc, made)?)
}

#[cycle(flat)]
fn boxed_two(
    alloc: Global,
    numbers: &Numbers,
    left: &Expr,
    right: &Expr,
) -> Result<(Box<FlatExpr>, Box<FlatExpr>), Memory>
    ensures left { IfOk result (λ pair. pair.0.value ≡ numbered_expr numbers.now left.now) }
    ensures right { IfOk result (λ pair. pair.1.value ≡ numbered_expr numbers.now right.now) }
{
    let left = boxed(alloc, numbers, left)?;
    let right = boxed(alloc, numbers, right)?;
    Ok((left, right))
}

/// The same expressions in order.
#[cycle(flat)]
pub fn flat_exprs(alloc: Global, numbers: &Numbers, items: &[Expr]) -> Result<FlatExprList, Memory>
    ensures { IfOk result (λ made. made ≡ map (numbered_expr numbers.now) items.now) }
{
    let mut made = Vec::new(alloc);
    for item in items {
        made.push(flat_expr(alloc, numbers, item)?)?;
    }
    Ok(FlatExprList::of(made))
}

fn constant_copy(constant: &Constant) -> Result<Constant, Memory>
    ensures { IfOk result (λ copy. constant_of copy ≡ constant_of constant.now) }
{
    match constant {
        Constant::Nothing => Ok(Constant::Nothing),
        Constant::Bool(truth) => Ok(Constant::Bool(*truth)),
        Constant::Int(number) => Ok(Constant::Int(*number)),
        Constant::Text(text) => Ok(Constant::Text(text.clone()?)),
        Constant::Bytes(bytes) => Ok(Constant::Bytes(bytes.clone()?)),
    }
}
