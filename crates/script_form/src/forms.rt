//! The forms of lines.
ghost use Rattle.std.specs.Prelude.{◌≡◌, Some, option_map, map};
ghost use Rattle.std.specs.Rc.{rc_str_bytes};
ghost use Rattle.model_text.specs.Forms.{alone, with_term, profile_form, def_form, yield_from, yield_form, name_form, print_form, return_form, except_form, with_form, form_behind, form_of, Assign, YieldFrom, Raise, Return, If, While, WithGroup};
ghost use Rattle.model_text.specs.Places.{height_of_form};
ghost use Rattle.script_term.specs.Lexeme.{plain_lexeme};
ghost use Rattle.script_term.specs.Spelled.{plain_spelled, plain_goal};
ghost use Rattle.script_form.specs.Fronts.{as_name, timeout_parts, timeout_form};
ghost use Rattle.script_form.specs.Placed.{standing_of};
ghost use Rattle.script_form.specs.Unplaced.{plain_unplaced, unplaced_of, Reads};

use crate::form_place::FormPlace;
use crate::fronts::{as_name, before_as, behind_name, behind_sign, behind_word, in_parentheses};
use crate::goal::goal_of;
use crate::parts::parts;
use crate::terms::{all_names, all_terms, one_term};
use script_term::{Goal, Lexeme, ReservedWord, Spelled, Symbol, Term};
use std::alloc::{AllocError, Global};
use std::rc::RcStr;

/// A form before its place is looked at.
#[derive(Drop)]
pub struct UnplacedForm {
    /// The form, if no expression of it is too high.
    pub form: Option<Spelled>,
    pub standing: FormPlace,
}

/// The form of a line, which has lexemes.
#[tactic(auto, unfolding(model_text::specs::Forms::form_of))]
pub fn form_of(alloc: Global, lexemes: &[Lexeme]) -> Result<Option<UnplacedForm>, AllocError>
    ensures { Reads result (form_of (map plain_lexeme lexemes.now)) }
{
    match lexemes.split_first() {
        Some((Lexeme::Reserved(word), rest)) => form_behind(alloc, *word, rest),
        Some((Lexeme::Named(name), rest)) => name_form(alloc, name, rest),
        _ => Ok(None),
    }
}

/// The form of a line that begins with a reserved word, by what stands behind it.
fn form_behind(
    alloc: Global,
    word: ReservedWord,
    rest: &[Lexeme],
) -> Result<Option<UnplacedForm>, AllocError>
    ensures { Reads result (form_behind word (map plain_lexeme rest.now)) }
{
    match word {
        ReservedWord::Profile => Ok(profile_form(rest)),
        ReservedWord::Def => def_form(alloc, rest),
        ReservedWord::End => Ok(alone(Spelled::End, FormPlace::Anywhere, rest)),
        ReservedWord::Yield => yield_form(alloc, rest),
        ReservedWord::Print => print_form(alloc, rest),
        ReservedWord::Raise => raise_form(alloc, rest),
        ReservedWord::Return => return_form(alloc, rest),
        ReservedWord::Pass => Ok(alone(Spelled::Pass, FormPlace::Inside, rest)),
        ReservedWord::If => if_form(alloc, rest),
        ReservedWord::Else => Ok(alone(Spelled::Else, FormPlace::Anywhere, rest)),
        ReservedWord::While => while_form(alloc, rest),
        ReservedWord::Try => Ok(alone(Spelled::Try, FormPlace::Inside, rest)),
        ReservedWord::Except => except_form(rest),
        ReservedWord::Finally => Ok(alone(Spelled::Finally, FormPlace::Anywhere, rest)),
        ReservedWord::With => with_form(alloc, rest),
        _ => Ok(None),
    }
}

/// A form with nothing behind its first word.
fn alone(form: Spelled, standing: FormPlace, rest: &[Lexeme]) -> Option<UnplacedForm>
    requires flat { height_of_form (plain_spelled form) ≡ 0 }
    requires standing { standing ≡ standing_of (plain_spelled form) }
    ensures { option_map plain_unplaced result
        ≡ option_map unplaced_of (alone (plain_spelled form) (map plain_lexeme rest.now)) }
{
    if rest.is_empty() {
        Some(UnplacedForm {
            form: Some(form),
            standing,
        })
    } else {
        None
    }
}

fn profile_form(rest: &[Lexeme]) -> Option<UnplacedForm>
    ensures { option_map plain_unplaced result
        ≡ option_map unplaced_of (profile_form (map plain_lexeme rest.now)) }
{
    match rest.split_first()? {
        (Lexeme::Number(number), []) => Some(UnplacedForm {
            form: Some(Spelled::Profile(number.unsigned_abs())),
            standing: FormPlace::First,
        }),
        _ => None,
    }
}

/// `NAME(NAME, ..)`.
fn def_form(alloc: Global, rest: &[Lexeme]) -> Result<Option<UnplacedForm>, AllocError>
    ensures { Reads result (def_form (map plain_lexeme rest.now)) }
{
    let Some((name, rest)) = behind_name(rest) else {
        return Ok(None);
    };
    let Some(inner) = in_parentheses(rest) else {
        return Ok(None);
    };
    let parts = parts(alloc, inner)?;
    let Some(parameters) = all_names(alloc, parts.as_slice())? else {
        return Ok(None);
    };
    Ok(Some(UnplacedForm {
        form: Some(Spelled::Def(name.clone()?, parameters)),
        standing: FormPlace::Outside,
    }))
}

/// `from TARGET`.
fn yield_from(
    alloc: Global,
    into: Option<RcStr>,
    rest: &[Lexeme],
) -> Result<Option<UnplacedForm>, AllocError>
    ensures { Reads result (yield_from (option_map rc_str_bytes into) (map plain_lexeme rest.now)) }
{
    let Some(rest) = behind_word(rest, ReservedWord::From) else {
        return Ok(None);
    };
    let Some(goal) = goal_of(alloc, rest)? else {
        return Ok(None);
    };
    Ok(Some(UnplacedForm {
        form: awaiting(into, goal.fits()),
        standing: FormPlace::Inside,
    }))
}

fn awaiting(into: Option<RcStr>, goal: Option<Goal>) -> Option<Spelled>
    ensures { option_map plain_spelled result
        ≡ option_map (YieldFrom (option_map rc_str_bytes into)) (option_map plain_goal goal) }
{
    Some(Spelled::YieldFrom(into, goal?))
}

fn yield_form(alloc: Global, rest: &[Lexeme]) -> Result<Option<UnplacedForm>, AllocError>
    ensures { Reads result (yield_form (map plain_lexeme rest.now)) }
{
    if rest.is_empty() {
        return Ok(Some(UnplacedForm {
            form: Some(Spelled::Yield),
            standing: FormPlace::Inside,
        }));
    }
    yield_from(alloc, None, rest)
}

/// `= EXPR` or `= yield from TARGET`, behind a name.
fn name_form(
    alloc: Global,
    name: &RcStr,
    rest: &[Lexeme],
) -> Result<Option<UnplacedForm>, AllocError>
    ensures { Reads result (name_form (rc_str_bytes name.now) (map plain_lexeme rest.now)) }
{
    let Some(rest) = behind_sign(rest, Symbol::Assign) else {
        return Ok(None);
    };
    let name = name.clone()?;
    match behind_word(rest, ReservedWord::Yield) {
        Some(rest) => yield_from(alloc, Some(name), rest),
        None => assign_form(alloc, name, rest),
    }
}

fn assign_form(
    alloc: Global,
    name: RcStr,
    rest: &[Lexeme],
) -> Result<Option<UnplacedForm>, AllocError>
    ensures { Reads result (with_term (Assign (rc_str_bytes name)) (map plain_lexeme rest.now)) }
{
    let Some(value) = one_term(alloc, rest)? else {
        return Ok(None);
    };
    Ok(Some(UnplacedForm {
        form: value.fits().map(|value| Spelled::Assign(name, value)),
        standing: FormPlace::Inside,
    }))
}

/// One expression or more.
fn print_form(alloc: Global, rest: &[Lexeme]) -> Result<Option<UnplacedForm>, AllocError>
    ensures { Reads result (print_form (map plain_lexeme rest.now)) }
{
    if rest.is_empty() {
        return Ok(None);
    }
    let parts = parts(alloc, rest)?;
    let Some(items) = all_terms(alloc, parts.as_slice())? else {
        return Ok(None);
    };
    Ok(Some(UnplacedForm {
        form: items.fits().map(Spelled::Print),
        standing: FormPlace::Inside,
    }))
}

fn raise_form(alloc: Global, rest: &[Lexeme]) -> Result<Option<UnplacedForm>, AllocError>
    ensures { Reads result (with_term Raise (map plain_lexeme rest.now)) }
{
    let Some(fault) = one_term(alloc, rest)? else {
        return Ok(None);
    };
    Ok(Some(UnplacedForm {
        form: fault.fits().map(Spelled::Raise),
        standing: FormPlace::Inside,
    }))
}

fn if_form(alloc: Global, rest: &[Lexeme]) -> Result<Option<UnplacedForm>, AllocError>
    ensures { Reads result (with_term If (map plain_lexeme rest.now)) }
{
    let Some(test) = one_term(alloc, rest)? else {
        return Ok(None);
    };
    Ok(Some(UnplacedForm {
        form: test.fits().map(Spelled::If),
        standing: FormPlace::Inside,
    }))
}

fn while_form(alloc: Global, rest: &[Lexeme]) -> Result<Option<UnplacedForm>, AllocError>
    ensures { Reads result (with_term While (map plain_lexeme rest.now)) }
{
    let Some(test) = one_term(alloc, rest)? else {
        return Ok(None);
    };
    Ok(Some(UnplacedForm {
        form: test.fits().map(Spelled::While),
        standing: FormPlace::Inside,
    }))
}

fn return_form(alloc: Global, rest: &[Lexeme]) -> Result<Option<UnplacedForm>, AllocError>
    ensures { Reads result (return_form (map plain_lexeme rest.now)) }
{
    if rest.is_empty() {
        return Ok(Some(UnplacedForm {
            form: Some(Spelled::Return(None)),
            standing: FormPlace::OutsideFinally,
        }));
    }
    let Some(value) = one_term(alloc, rest)? else {
        return Ok(None);
    };
    Ok(Some(UnplacedForm {
        form: returning(value.fits()),
        standing: FormPlace::OutsideFinally,
    }))
}

fn returning(value: Option<Term>) -> Option<Spelled>
    ensures { option_map plain_spelled result ≡ option_map (λ value. Return (Some value)) value }
{
    Some(Spelled::Return(Some(value?)))
}

/// `KIND`, or `KIND as NAME`.
fn except_form(rest: &[Lexeme]) -> Result<Option<UnplacedForm>, AllocError>
    ensures { Reads result (except_form (map plain_lexeme rest.now)) }
{
    let Some((kind, rest)) = behind_name(rest) else {
        return Ok(None);
    };
    let mut name = None;
    if !rest.is_empty() {
        let Some(found) = as_name(rest) else {
            return Ok(None);
        };
        name = Some(found.clone()?);
    }
    Ok(Some(UnplacedForm {
        form: Some(Spelled::Except(kind.clone()?, name)),
        standing: FormPlace::Anywhere,
    }))
}

/// `group as NAME`, or `timeout(EXPR) as NAME`.
fn with_form(alloc: Global, rest: &[Lexeme]) -> Result<Option<UnplacedForm>, AllocError>
    ensures { Reads result (with_form (map plain_lexeme rest.now)) }
{
    match behind_word(rest, ReservedWord::Group) {
        Some(rest) => group_form(rest),
        None => timeout_form(alloc, rest),
    }
}

fn group_form(rest: &[Lexeme]) -> Result<Option<UnplacedForm>, AllocError>
    ensures { Reads result (option_map WithGroup (as_name (map plain_lexeme rest.now))) }
{
    let Some(name) = as_name(rest) else {
        return Ok(None);
    };
    Ok(Some(UnplacedForm {
        form: Some(Spelled::WithGroup(name.clone()?)),
        standing: FormPlace::Inside,
    }))
}

fn timeout_form(alloc: Global, rest: &[Lexeme]) -> Result<Option<UnplacedForm>, AllocError>
    ensures { Reads result (timeout_form (map plain_lexeme rest.now)) }
{
    let Some((inner, name)) = timeout_parts(rest) else {
        return Ok(None);
    };
    let Some(delay) = one_term(alloc, inner)? else {
        return Ok(None);
    };
    let name = name.clone()?;
    Ok(Some(UnplacedForm {
        form: delay.fits().map(|delay| Spelled::WithTimeout(delay, name)),
        standing: FormPlace::Inside,
    }))
}

/// The expression and the name of `timeout(EXPR) as NAME`.
fn timeout_parts(rest: &[Lexeme]) -> Option<(&[Lexeme], &RcStr)>
    ensures { option_map (λ found. (map plain_lexeme found.0.now, rc_str_bytes found.1.now)) result
        ≡ timeout_parts (map plain_lexeme rest.now) }
{
    let rest = behind_word(rest, ReservedWord::Timeout)?;
    before_as(behind_sign(rest, Symbol::LeftParenthesis)?)
}
