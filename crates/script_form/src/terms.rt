//! The expressions of a line.
ghost use Rattle.std.specs.Prelude.{◌≡◌, List, [], ◌∷◌, ◌++◌, option_map, option_and_then, map, IfOk};
ghost use Rattle.std.specs.Rc.{rc_str_bytes};
ghost use Rattle.model_text.specs.Terms.{Term as PlainTerm, height};
ghost use Rattle.model_text.specs.Levels.{term_of, all_of, bare_name, from_bare, arguments_of};
ghost use Rattle.model_text.specs.Places.{heights};
ghost use Rattle.algorithm_reading.specs.Operands.{that_fits};
ghost use Rattle.script_term.specs.Lexeme.{plain_lexeme};
ghost use Rattle.script_term.specs.Operand.{plain_operand};
ghost use Rattle.script_term.specs.Spelled.{plain_arguments};
ghost use Rattle.script_form.specs.Capped.{plain_capped};
ghost use Rattle.script_form.specs.Fitting.{fitting, height_of_arguments};
ghost use Rattle.script_form.specs.Parts.{plain_part};

use crate::capped::Capped;
use crate::fronts::bare_name;
use script_term::{Arguments, Lexeme, Operand, Term};
use script_term_reader::read_term;
use std::alloc::{AllocError, Global};
use std::rc::RcStr;

/// The expression that lexemes spell.
pub fn one_term(alloc: Global, lexemes: &[Lexeme]) -> Result<Option<Capped<Term>>, AllocError>
    ensures { IfOk result
        (λ read. option_map plain_capped read
        ≡ option_map (fitting height) (term_of (map plain_lexeme lexemes.now))) }
{
    let Some(operand) = read_term(alloc, lexemes)? else {
        return Ok(None);
    };
    Ok(Some(that_fits(operand)))
}

fn that_fits(operand: Operand) -> Capped<Term>
    ensures { plain_capped result ≡ that_fits (plain_operand operand) }
{
    match operand {
        Operand::Fits(term) => Capped::Fits(term),
        Operand::TooHigh => Capped::TooHigh,
    }
}

/// The expressions that parts spell, if each spells one.
pub fn all_terms(
    alloc: Global,
    parts: &[&[Lexeme]],
) -> Result<Option<Capped<Vec<Term>>>, AllocError>
    ensures { IfOk result
        (λ read. option_map (λ terms. option_map (λ terms. terms.items) (plain_capped terms)) read
        ≡ option_map (fitting heights) (all_of term_of (map plain_part parts.now))) }
{
    let mut terms = Capped::Fits(Vec::new(alloc));
    for part in parts {
        let Some(term) = one_term(alloc, part)? else {
            return Ok(None);
        };
        terms = with_last(terms, term)?;
    }
    Ok(Some(terms))
}

/// One term more, if none is too high.
fn with_last(terms: Capped<Vec<Term>>, term: Capped<Term>) -> Result<Capped<Vec<Term>>, AllocError>
    ensures { IfOk result (λ all. option_map (λ terms. terms.items) (plain_capped all)
        ≡ option_and_then (λ before. option_map (λ last. before ++ last ∷ []) (plain_capped term))
        (option_map (λ terms. terms.items) (plain_capped terms))) }
{
    let (Capped::Fits(mut terms), Capped::Fits(term)) = (terms, term) else {
        return Ok(Capped::TooHigh);
    };
    terms.push(term)?;
    Ok(Capped::Fits(terms))
}

/// The names that parts are, if each is one.
pub fn all_names(alloc: Global, parts: &[&[Lexeme]]) -> Result<Option<Vec<RcStr>>, AllocError>
    ensures { IfOk result (λ read. option_map (λ names. map rc_str_bytes names.items) read
        ≡ all_of bare_name (map plain_part parts.now)) }
{
    let mut names = Vec::new(alloc);
    for part in parts {
        let Some(name) = bare_name(part) else {
            return Ok(None);
        };
        names.push(name.clone()?)?;
    }
    Ok(Some(names))
}

/// The arguments that parts spell, where the one at a place is a bare name.
pub fn arguments_of(
    alloc: Global,
    place: Option<usize>,
    parts: &[&[Lexeme]],
) -> Result<Option<Capped<Arguments>>, AllocError>
    ensures { IfOk result
        (λ read. option_map (λ all. option_map plain_arguments (plain_capped all)) read
        ≡ option_map (fitting height_of_arguments)
        (arguments_of term_of place (map plain_part parts.now))) }
{
    let split = match place {
        Some(place) if place < parts.len() => place,
        _ => parts.len(),
    };
    let (before, rest) = parts.split_at(split);
    let Some(before) = all_terms(alloc, before)? else {
        return Ok(None);
    };
    from_bare(alloc, before, rest)
}

/// The arguments behind those before a bare name.
fn from_bare(
    alloc: Global,
    before: Capped<Vec<Term>>,
    parts: &[&[Lexeme]],
) -> Result<Option<Capped<Arguments>>, AllocError>
    ensures { (terms : List PlainTerm)
        → option_map (λ terms. terms.items) (plain_capped before) ≡ fitting heights terms
        → IfOk result
        (λ read. option_map (λ all. option_map plain_arguments (plain_capped all)) read
        ≡ option_map (fitting height_of_arguments)
        (from_bare term_of terms (map plain_part parts.now))) }
{
    let Some((part, others)) = parts.split_first() else {
        return Ok(Some(joined(before, None, Capped::Fits(Vec::new(alloc)))));
    };
    let Some(name) = bare_name(part) else {
        return Ok(None);
    };
    let Some(after) = all_terms(alloc, others)? else {
        return Ok(None);
    };
    Ok(Some(joined(before, Some(name.clone()?), after)))
}

/// Arguments, if none is too high.
fn joined(
    before: Capped<Vec<Term>>,
    bare: Option<RcStr>,
    after: Capped<Vec<Term>>,
) -> Capped<Arguments>
    ensures { (first last : List PlainTerm)
        → option_map (λ terms. terms.items) (plain_capped before) ≡ fitting heights first
        → option_map (λ terms. terms.items) (plain_capped after) ≡ fitting heights last
        → option_map plain_arguments (plain_capped result)
        ≡ fitting height_of_arguments
        (record { before = first; bare = option_map rc_str_bytes bare; after = last }) }
{
    match (before, after) {
        (Capped::Fits(before), Capped::Fits(after)) => Capped::Fits(Arguments {
            before,
            bare,
            after,
        }),
        _ => Capped::TooHigh,
    }
}
