//! What was read, kept only where it isn't too high.
ghost use Rattle.std.specs.Prelude.{◌≡◌, IfOk, map, option_map};
ghost use Rattle.model_text.specs.Terms.{Not, Negate};
ghost use Rattle.model_text.specs.Levels.{all_of};
ghost use Rattle.algorithm_reading.specs.Operands.{capped, of_one, of_two, that_fits};
ghost use Rattle.script_term.specs.Operand.{plain_operand, build_of, with_last};

use crate::term::Term;
use model_tree::{Comparison, Operator};
use std::alloc::{AllocError, Global};

/// What was read: an expression at most 32 high, or that it is higher. So no tree is ever deep.
#[derive(Drop)]
pub enum Operand {
    Fits(Term),
    TooHigh,
}

const MOST_HEIGHT: u8 = 32;

/// What joins two operands.
#[derive(Clone, Copy)]
pub enum Join {
    Or,
    And,
    Compare(Comparison),
    Calculate(Operator),
    Index,
}

/// The expression, if it isn't too high.
pub fn capped(term: Term) -> Operand
    ensures { plain_operand result ≡ capped term }
{
    if term.height() <= MOST_HEIGHT {
        Operand::Fits(term)
    } else {
        Operand::TooHigh
    }
}

/// Two operands joined, or that what they make is too high.
pub fn joined(
    alloc: Global,
    join: Join,
    left: Operand,
    right: Operand,
) -> Result<Operand, AllocError>
    ensures { IfOk result (λ operand. plain_operand operand
        ≡ of_two (build_of join) (plain_operand left) (plain_operand right)) }
{
    match left {
        Operand::Fits(left) => joined_to(alloc, join, left, right),
        Operand::TooHigh => Ok(Operand::TooHigh),
    }
}

fn joined_to(alloc: Global, join: Join, left: Term, right: Operand) -> Result<Operand, AllocError>
    ensures { IfOk result (λ operand. plain_operand operand
        ≡ of_one (build_of join left) (plain_operand right)) }
{
    match right {
        Operand::Fits(right) => {
            let left = Box::new(alloc, left)?;
            let right = Box::new(alloc, right)?;
            Ok(capped(built(join, left, right)))
        }
        Operand::TooHigh => Ok(Operand::TooHigh),
    }
}

fn built(join: Join, left: Box<Term>, right: Box<Term>) -> Term
    ensures { result ≡ build_of join left.value right.value }
{
    match join {
        Join::Or => Term::or(left, right),
        Join::And => Term::and(left, right),
        Join::Compare(comparison) => Term::compare(comparison, left, right),
        Join::Calculate(operator) => Term::calculate(operator, left, right),
        Join::Index => Term::index(left, right),
    }
}

/// `not`.
pub fn denied(alloc: Global, operand: Operand) -> Result<Operand, AllocError>
    ensures { IfOk result (λ denied. plain_operand denied ≡ of_one Not (plain_operand operand)) }
{
    match operand {
        Operand::Fits(term) => Ok(capped(Term::not(Box::new(alloc, term)?))),
        Operand::TooHigh => Ok(Operand::TooHigh),
    }
}

/// Unary `-`.
pub fn negated(alloc: Global, operand: Operand) -> Result<Operand, AllocError>
    ensures { IfOk result (λ negated. plain_operand negated
        ≡ of_one Negate (plain_operand operand)) }
{
    match operand {
        Operand::Fits(term) => Ok(capped(Term::negate(Box::new(alloc, term)?))),
        Operand::TooHigh => Ok(Operand::TooHigh),
    }
}

/// All expressions, where each fits.
pub fn all_that_fit(alloc: Global, operands: Vec<Operand>) -> Result<Option<Vec<Term>>, AllocError>
    ensures { IfOk result (λ terms. option_map (λ all. all.items) terms
        ≡ all_of that_fits (map plain_operand operands.items)) }
{
    let mut terms = Some(Vec::new(alloc));
    for operand in operands {
        terms = with_fitting(terms, operand)?;
    }
    Ok(terms)
}

fn with_fitting(terms: Option<Vec<Term>>, operand: Operand) -> Result<Option<Vec<Term>>, AllocError>
    ensures { IfOk result (λ more. option_map (λ all. all.items) more
        ≡ with_last (option_map (λ all. all.items) terms) (that_fits (plain_operand operand))) }
{
    let Some(mut terms) = terms else {
        return Ok(None);
    };
    match operand {
        Operand::Fits(term) => {
            terms.push(term)?;
            Ok(Some(terms))
        }
        Operand::TooHigh => Ok(None),
    }
}
