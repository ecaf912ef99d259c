//! The text of expressions. Each call appends it, and on `Memory` leaves a front of it.
ghost use Rattle.std.specs.Prelude.{◌≡◌, List, ℕ, ◌++◌, OnOk, if◌then◌else◌};
ghost use Rattle.model_tree.specs.Syntax.{MakeError, exprs};
ghost use Rattle.model_text.specs.Canonical.{expr_text, exprs_text, more_text, as_operand, in_parentheses};

use crate::constant::push_constant;
use crate::words::{push_name, text_of_comparison, text_of_operator};
use aio_base::{Memory, name_of};
use aio_syntax::{Expr, ExprCase, Kind, name_of_function};
use std::alloc::Global;

/// Appends an expression without parentheses round it.
#[cycle(expression)]
pub fn push_expr(alloc: Global, expr: &Expr, out: &mut Vec<u8>) -> Result<(), Memory>
    ensures { OnOk result (out.new.items ≡ out.old.items ++ expr_text expr.now) }
{
    match expr.case() {
        ExprCase::Or(left, right) => push_operands(alloc, left, " or ", right, out)?,
        ExprCase::And(left, right) => push_operands(alloc, left, " and ", right, out)?,
        ExprCase::Not(operand) => push_prefixed(alloc, "not ", operand, out)?,
        ExprCase::Compare(comparison, left, right) => {
            push_operands(alloc, left, text_of_comparison(comparison), right, out)?;
        }
        ExprCase::Calculate(operator, left, right) => {
            push_operands(alloc, left, text_of_operator(operator), right, out)?;
        }
        ExprCase::Negate(operand) => push_prefixed(alloc, "-", operand, out)?,
        ExprCase::Index(sequence, index) => {
            push_operand(alloc, sequence, out)?;
            out.push(b'[')?;
            push_expr(alloc, index, out)?;
            out.push(b']')?;
        }
        ExprCase::Literal(constant) => push_constant(alloc, constant, out)?,
        ExprCase::Variable(name) => push_name(name.text(), out)?,
        ExprCase::List(items) => {
            out.push(b'[')?;
            push_exprs(alloc, items.items(), out)?;
            out.push(b']')?;
        }
        ExprCase::Apply(function, argument) => {
            out.extend_from_slice(name_of_function(function).as_bytes())?;
            push_in_parentheses(alloc, argument, out)?;
        }
        ExprCase::MakeError(kind, message) => push_error(alloc, kind, message, out)?,
    }
    Ok(())
}

/// `error(KIND, t)`.
#[cycle(expression)]
fn push_error(alloc: Global, kind: Kind, message: &Expr, out: &mut Vec<u8>) -> Result<(), Memory>
    ensures { OnOk result
        (out.new.items ≡ out.old.items ++ expr_text (MakeError kind message.now)) }
{
    out.extend_from_slice(b"error(")?;
    out.extend_from_slice(name_of(kind).as_bytes())?;
    out.extend_from_slice(b", ")?;
    push_expr(alloc, message, out)?;
    out.push(b')')?;
    Ok(())
}

/// An operator that stands before its operand.
#[cycle(expression)]
fn push_prefixed(
    alloc: Global,
    operator: &str,
    operand: &Expr,
    out: &mut Vec<u8>,
) -> Result<(), Memory>
    ensures { OnOk result
        (out.new.items
        ≡ out.old.items ++ (operator.now ++ as_operand operand.now (expr_text operand.now))) }
{
    out.extend_from_slice(operator.as_bytes())?;
    push_operand(alloc, operand, out)
}

/// Two operands, and the operator between them.
#[cycle(expression)]
fn push_operands(
    alloc: Global,
    left: &Expr,
    operator: &str,
    right: &Expr,
    out: &mut Vec<u8>,
) -> Result<(), Memory>
    ensures { OnOk result
        (out.new.items
        ≡ out.old.items
        ++ (as_operand left.now (expr_text left.now) ++ operator.now
        ++ as_operand right.now (expr_text right.now))) }
{
    push_operand(alloc, left, out)?;
    out.extend_from_slice(operator.as_bytes())?;
    push_operand(alloc, right, out)
}

/// In parentheses, where it is an operation.
#[cycle(expression)]
fn push_operand(alloc: Global, expr: &Expr, out: &mut Vec<u8>) -> Result<(), Memory>
    ensures { OnOk result
        (out.new.items ≡ out.old.items ++ as_operand expr.now (expr_text expr.now)) }
{
    if is_operation(expr) {
        push_in_parentheses(alloc, expr, out)
    } else {
        push_expr(alloc, expr, out)
    }
}

#[cycle(expression)]
fn push_in_parentheses(alloc: Global, expr: &Expr, out: &mut Vec<u8>) -> Result<(), Memory>
    ensures { OnOk result (out.new.items ≡ out.old.items ++ in_parentheses (expr_text expr.now)) }
{
    out.push(b'(')?;
    push_expr(alloc, expr, out)?;
    out.push(b')')?;
    Ok(())
}

/// Expressions with `, ` between them.
#[cycle(expression)]
pub fn push_exprs(alloc: Global, items: &[Expr], out: &mut Vec<u8>) -> Result<(), Memory>
    ensures { OnOk result (out.new.items ≡ out.old.items ++ exprs_text (exprs items.now)) }
{
    let mut before: &[u8] = b"";
    for item in items {
        out.extend_from_slice(before)?;
        push_expr(alloc, item, out)?;
        before = b", ";
    }
    Ok(())
}

/// Expressions, each behind its `, `.
pub fn push_more(alloc: Global, items: &[Expr], out: &mut Vec<u8>) -> Result<(), Memory>
    ensures { OnOk result (out.new.items ≡ out.old.items ++ more_text (exprs items.now)) }
{
    for item in items {
        out.extend_from_slice(b", ")?;
        push_expr(alloc, item, out)?;
    }
    Ok(())
}

fn is_operation(expr: &Expr) -> bool
    ensures { (text : List ℕ) → as_operand expr.now text
        ≡ (if result then in_parentheses text else text) }
{
    matches!(
        expr.case(),
        ExprCase::Or(..)
            | ExprCase::And(..)
            | ExprCase::Not(..)
            | ExprCase::Compare(..)
            | ExprCase::Calculate(..)
            | ExprCase::Negate(..)
    )
}
