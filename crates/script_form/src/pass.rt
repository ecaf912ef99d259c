//! The first pass over a text.
ghost use Rattle.std.specs.Prelude.{◌≡◌, List, ◌∷◌, Ok, Some, None, IfOk, IfErr, map, option_map};
ghost use Rattle.model_text.specs.Forms.{Spelled as PlainSpelled};
ghost use Rattle.model_text.specs.Places.{Role as PlainRole, role_of, cause_behind, is_profile};
ghost use Rattle.model_text.specs.TextLines.{text_lines};
ghost use Rattle.model_text.specs.Tokens.{tokens_of};
ghost use Rattle.model_text.specs.FirstPass.{line_behind, first_pass};
ghost use Rattle.script_term.specs.Spelled.{plain_spelled, plain_numbered};
ghost use Rattle.script_form.specs.Placed.{IsBehind};
ghost use Rattle.script_form.specs.Unplaced.{plain_unplaced, unplaced_of};
ghost use Rattle.script_fault.specs.Faults.{IsFaultOf};
ghost use Rattle.script_form.specs.Faults.{IsCauseOf, IsCauseIn};
ghost use Rattle.script_form.specs.Behind.{roles_behind};

use crate::block::role_of;
use crate::forms::{UnplacedForm, form_of};
use crate::places::Places;
use crate::text::next_text_line;
use aio_lex::{LexFault, TokenList, tokens};
use model_text::Cause;
use script_fault::{LineFault, ScriptFault};
use script_term::{NumberedForm, Spelled, lexemes};
use std::alloc::Global;

/// The forms of a text's lines, with their numbers, or the least faulty line.
pub fn first_pass(alloc: Global, text: &[u8]) -> Result<Vec<NumberedForm>, ScriptFault>
    ensures forms { IfOk result
        (λ forms. first_pass (text_lines text.now) ≡ Ok (map plain_numbered forms.items)) }
    ensures fault { IfErr result (IsFaultOf (first_pass (text_lines text.now))) }
{
    let mut places = Places::new(alloc);
    let mut forms = Vec::new(alloc);
    let mut line = 1;
    let mut rest = text;
    while let Some((first, behind)) = next_text_line(rest) {
        let form = match line_form(alloc, &mut places, first) {
            Ok(form) => form,
            Err(fault) => return Err(fault.at(line)),
        };
        if let Some(form) = form {
            forms.push(NumberedForm { line, form })?;
        }
        line += 1;
        rest = behind;
    }
    if places.is_outside() {
        Ok(forms)
    } else {
        Err(LineFault::Refused(Cause::Nesting).at(line))
    }
}

/// The form of a line behind the lines that stand before; nothing where it has no token.
fn line_form(alloc: Global, places: &mut Places, line: &[u8]) -> Result<Option<Spelled>, LineFault>
    ensures form { (roles : List PlainRole) → IsBehind places.old roles
        → IfOk result (λ form. line_behind roles line.now ≡ Ok (option_map plain_spelled form)) }
    ensures places { (roles : List PlainRole) → IsBehind places.old roles
        → IfOk result
        (λ form. IsBehind places.new (roles_behind (option_map plain_spelled form) roles)) }
    ensures fault { (roles : List PlainRole) → IsBehind places.old roles
        → IfErr result (λ fault. IsCauseOf fault (line_behind roles line.now)) }
{
    let tokens = line_tokens(alloc, line)?;
    let lexemes = lexemes(alloc, &tokens)?;
    if lexemes.is_empty() {
        return Ok(None);
    }
    let Some(unplaced) = form_of(alloc, lexemes.as_slice())? else {
        return Err(LineFault::Refused(Cause::Form));
    };
    Ok(Some(placed(places, unplaced)?))
}

fn line_tokens(alloc: Global, line: &[u8]) -> Result<TokenList, LineFault>
    ensures tokens { IfOk result (λ tokens. tokens_of line.now ≡ Ok tokens) }
    ensures fault { (roles : List PlainRole)
        → IfErr result (λ fault. IsCauseOf fault (line_behind roles line.now)) }
{
    match tokens(alloc, line) {
        Ok(tokens) => Ok(tokens),
        Err(LexFault::Memory) => Err(LineFault::Memory),
        Err(_) => Err(LineFault::Refused(Cause::Token)),
    }
}

/// A form that stands where it may, and from then on before the lines to come.
fn placed(places: &mut Places, unplaced: UnplacedForm) -> Result<Spelled, LineFault>
    ensures form { (roles : List PlainRole) (form : PlainSpelled) → IsBehind places.old roles
        → plain_unplaced unplaced ≡ unplaced_of form
        → IfOk result
        (λ spelled. (plain_spelled spelled ≡ form) × (cause_behind roles form ≡ None)) }
    ensures places { (roles : List PlainRole) (form : PlainSpelled) → IsBehind places.old roles
        → plain_unplaced unplaced ≡ unplaced_of form
        → IfOk result (λ spelled. IsBehind places.new (role_of form ∷ roles)) }
    ensures fault { (roles : List PlainRole) (form : PlainSpelled) → IsBehind places.old roles
        → plain_unplaced unplaced ≡ unplaced_of form
        → IfErr result (λ fault. IsCauseIn fault (cause_behind roles form)) }
{
    if !places.may_stand(unplaced.standing) {
        return Err(LineFault::Refused(Cause::Form));
    }
    let Some(form) = unplaced.form else {
        return Err(LineFault::Refused(Cause::Nesting));
    };
    let role = role_of(&form);
    if !places.fits(role) {
        return Err(LineFault::Refused(Cause::Nesting));
    }
    if !is_profile(&form) {
        return Err(LineFault::Refused(Cause::Profile));
    }
    places.add(role)?;
    Ok(form)
}

/// Whether the profile is one that there is.
fn is_profile(form: &Spelled) -> bool
    ensures { result ≡ is_profile (plain_spelled form.now) }
{
    match form {
        Spelled::Profile(number) => *number == 1 || *number == 2,
        _ => true,
    }
}
