//! What the names of an expression mean.
ghost use Rattle.std.specs.Prelude.{◌≡◌, ◌++◌, [], ◌∷◌, List, Ok, IfOk, IfErr, option_map};
ghost use Rattle.std.specs.Rc.{rc_str_bytes};
ghost use Rattle.model_tree.specs.Syntax.{Expr, Variable};
ghost use Rattle.model_tree.specs.Known.{function_of, kind_of_name};
ghost use Rattle.model_text.specs.Naming.{Meant, both, if_known, is_variable, meaning_of, all_meant, one_argument, error_of, error_call, function_call};
ghost use Rattle.aio_syntax.specs.Constant.{constant_of};
ghost use Rattle.script_naming.specs.Gives.{Gives, Fails};

use crate::both::both;
use crate::known::{is_made_by_error, kind_of_name};
use crate::scope::Scope;
use aio_syntax::{Constant, Expr, ExprList, VariableName, function_of};
use model_text::Cause;
use script_fault::LineFault;
use script_term::{Term, TermCase};
use std::alloc::{AllocError, Global};
use std::rc::RcStr;

/// What an expression means, or the least cause why it has no meaning.
#[cycle(meaning)]
pub fn meaning_of(alloc: Global, scope: &Scope<'_, '_>, term: &Term) -> Result<Expr, LineFault>
    ensures { Gives (λ meaning. meaning) (meaning_of scope.now term.now) result }
{
    match term.case() {
        TermCase::Or(left, right) => {
            let (left, right) = two_meant(alloc, scope, left, right)?;
            Ok(Expr::or(left, right))
        }
        TermCase::And(left, right) => {
            let (left, right) = two_meant(alloc, scope, left, right)?;
            Ok(Expr::and(left, right))
        }
        TermCase::Not(operand) => {
            let operand = meaning_of(alloc, scope, operand)?;
            Ok(Expr::not(Box::new(alloc, operand)?))
        }
        TermCase::Compare(comparison, left, right) => {
            let (left, right) = two_meant(alloc, scope, left, right)?;
            Ok(Expr::compare(comparison, left, right))
        }
        TermCase::Calculate(operator, left, right) => {
            let (left, right) = two_meant(alloc, scope, left, right)?;
            Ok(Expr::calculate(operator, left, right))
        }
        TermCase::Negate(operand) => {
            let operand = meaning_of(alloc, scope, operand)?;
            Ok(Expr::negate(Box::new(alloc, operand)?))
        }
        TermCase::Index(sequence, index) => {
            let (sequence, index) = two_meant(alloc, scope, sequence, index)?;
            Ok(Expr::index(sequence, index))
        }
        TermCase::Constantly(constant) => Ok(Expr::literal(shared_constant(constant)?)),
        TermCase::Variable(name) => variable(scope, name),
        TermCase::List(items) => {
            let items = all_meant(alloc, scope, items.items())?;
            Ok(Expr::list(ExprList::of(items)))
        }
        TermCase::Called(name, before, bare, after) => function_call(
            alloc,
            scope,
            name.as_str(),
            before.items(),
            bare,
            after.items(),
        ),
    }
}

/// What two expressions mean.
#[cycle(meaning)]
fn two_meant(
    alloc: Global,
    scope: &Scope<'_, '_>,
    left: &Term,
    right: &Term,
) -> Result<(Box<Expr>, Box<Expr>), LineFault>
    ensures left { IfOk result (λ pair. meaning_of scope.now left.now ≡ Ok pair.0.value) }
    ensures right { IfOk result (λ pair. meaning_of scope.now right.now ≡ Ok pair.1.value) }
    ensures fault { IfErr result (λ fault. (join : Expr → Expr → Expr)
        → Fails (both join (meaning_of scope.now left.now)
        (meaning_of scope.now right.now)) fault) }
{
    let left = meaning_of(alloc, scope, left);
    let right = meaning_of(alloc, scope, right);
    let (left, right) = both(left, right)?;
    Ok((Box::new(alloc, left)?, Box::new(alloc, right)?))
}

/// What expressions in order mean.
#[cycle(meaning)]
pub fn all_meant(
    alloc: Global,
    scope: &Scope<'_, '_>,
    items: &[Term],
) -> Result<Vec<Expr>, LineFault>
    ensures { Gives (λ all. all.items) (all_meant scope.now items.now) result }
{
    let mut all = Ok(Vec::new(alloc));
    for item in items {
        all = pushed(all, meaning_of(alloc, scope, item));
    }
    all
}

fn pushed(
    all: Result<Vec<Expr>, LineFault>,
    last: Result<Expr, LineFault>,
) -> Result<Vec<Expr>, LineFault>
    ensures { (front : Meant (List Expr)) (behind : Meant Expr)
        → Gives (λ all. all.items) front all → Gives (λ meaning. meaning) behind last
        → Gives (λ all. all.items) (both (λ xs x. xs ++ x ∷ []) front behind) result }
{
    let (mut all, last) = both(all, last)?;
    all.push(last)?;
    Ok(all)
}

/// What the one argument of a call means.
#[cycle(meaning)]
pub fn one_argument(
    alloc: Global,
    scope: &Scope<'_, '_>,
    arguments: &[Term],
) -> Result<Expr, LineFault>
    ensures meaning { IfOk result (λ argument. (call : Expr → Expr)
        → one_argument call (all_meant scope.now arguments.now) ≡ Ok (call argument)) }
    ensures fault { IfErr result (λ fault. (call : Expr → Expr)
        → Fails (one_argument call (all_meant scope.now arguments.now)) fault) }
{
    only(all_meant(alloc, scope, arguments)?)
}

fn only(mut all: Vec<Expr>) -> Result<Expr, LineFault>
    ensures meaning { IfOk result (λ argument. (call : Expr → Expr)
        → one_argument call (Ok all.items) ≡ Ok (call argument)) }
    ensures fault { IfErr result (λ fault. (call : Expr → Expr)
        → Fails (one_argument call (Ok all.items)) fault) }
{
    if all.len() != 1 {
        return Err(LineFault::Refused(Cause::Arity));
    }
    all.pop().ok_or(LineFault::Refused(Cause::Arity))
}

/// A call of a function by its name, with the arguments before and behind a kind.
#[cycle(meaning)]
fn function_call(
    alloc: Global,
    scope: &Scope<'_, '_>,
    name: &str,
    before: &[Term],
    bare: &Option<RcStr>,
    after: &[Term],
) -> Result<Expr, LineFault>
    ensures { Gives (λ meaning. meaning)
        (function_call name.now (function_of name.now) (all_meant scope.now before.now)
        (option_map rc_str_bytes bare.now) (all_meant scope.now after.now)) result }
{
    match function_of(name) {
        Some(function) => {
            let argument = one_argument(alloc, scope, before)?;
            Ok(Expr::apply(function, Box::new(alloc, argument)?))
        }
        None if name == "error" => error_call(alloc, scope, bare, after),
        None => Err(LineFault::Refused(Cause::Name)),
    }
}

/// `error(KIND, t)`, by the kind and what stands behind it.
#[cycle(meaning)]
fn error_call(
    alloc: Global,
    scope: &Scope<'_, '_>,
    bare: &Option<RcStr>,
    after: &[Term],
) -> Result<Expr, LineFault>
    ensures { Gives (λ meaning. meaning)
        (error_call (option_map rc_str_bytes bare.now) (all_meant scope.now after.now)) result }
{
    match bare {
        Some(kind) => error_of(alloc, scope, kind.as_str(), after),
        None => Err(LineFault::Refused(Cause::Arity)),
    }
}

#[cycle(meaning)]
fn error_of(
    alloc: Global,
    scope: &Scope<'_, '_>,
    kind: &str,
    after: &[Term],
) -> Result<Expr, LineFault>
    ensures { Gives (λ meaning. meaning)
        (error_of (kind_of_name kind.now) (all_meant scope.now after.now)) result }
{
    match kind_of_name(kind) {
        Some(kind) if is_made_by_error(kind) => {
            let message = one_argument(alloc, scope, after)?;
            Ok(Expr::make_error(kind, Box::new(alloc, message)?))
        }
        _ => Err(LineFault::Refused(Cause::Name)),
    }
}

fn variable(scope: &Scope<'_, '_>, name: &RcStr) -> Result<Expr, LineFault>
    ensures { Gives (λ meaning. meaning)
        (if_known (is_variable scope.now (rc_str_bytes name.now))
        (Variable (rc_str_bytes name.now)))
        result }
{
    if scope.is_variable(name.as_str()) {
        Ok(Expr::variable(VariableName::of(name.clone()?)))
    } else {
        Err(LineFault::Refused(Cause::Name))
    }
}

fn shared_constant(constant: &Constant) -> Result<Constant, AllocError>
    ensures { IfOk result (λ shared. constant_of shared ≡ constant_of constant.now) }
{
    Ok(match constant {
        Constant::Nothing => Constant::Nothing,
        Constant::Bool(truth) => Constant::Bool(*truth),
        Constant::Int(number) => Constant::Int(*number),
        Constant::Text(text) => Constant::Text(text.clone()?),
        Constant::Bytes(bytes) => Constant::Bytes(bytes.clone()?),
    })
}
