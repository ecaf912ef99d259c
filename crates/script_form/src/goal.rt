//! What `yield from` names.
ghost use Rattle.std.specs.Prelude.{◌≡◌, option_map, map, IfOk};
ghost use Rattle.std.specs.Rc.{rc_str_bytes};
ghost use Rattle.model_text.specs.Forms.{coroutine_place, goal_of};
ghost use Rattle.model_text.specs.Places.{height_of_goal};
ghost use Rattle.script_term.specs.Lexeme.{plain_lexeme};
ghost use Rattle.script_term.specs.Spelled.{plain_goal};
ghost use Rattle.script_form.specs.Capped.{plain_capped};
ghost use Rattle.script_form.specs.Fitting.{fitting};

use crate::capped::Capped;
use crate::fronts::{behind_name, in_parentheses};
use crate::parts::parts;
use crate::terms::arguments_of;
use script_term::{Goal, Lexeme};
use std::alloc::{AllocError, Global};
use std::rc::RcStr;

/// The place of the coroutine among the arguments of a request.
fn coroutine_place(name: &RcStr) -> Option<usize>
    ensures { result ≡ coroutine_place (rc_str_bytes name.now) }
{
    match name.as_str() {
        "spawn" => Some(0),
        "create" | "listen" => Some(1),
        _ => None,
    }
}

/// `NAME`, or `NAME(ARG, ..)`. A call is too high where an argument is.
pub fn goal_of(alloc: Global, lexemes: &[Lexeme]) -> Result<Option<Capped<Goal>>, AllocError>
    ensures { IfOk result
        (λ read. option_map (λ goal. option_map plain_goal (plain_capped goal)) read
        ≡ option_map (fitting height_of_goal) (goal_of (map plain_lexeme lexemes.now))) }
{
    let Some((name, rest)) = behind_name(lexemes) else {
        return Ok(None);
    };
    if rest.is_empty() {
        return Ok(Some(Capped::Fits(Goal::Awaited(name.clone()?))));
    }
    let Some(inner) = in_parentheses(rest) else {
        return Ok(None);
    };
    let parts = parts(alloc, inner)?;
    let Some(arguments) = arguments_of(alloc, coroutine_place(name), parts.as_slice())? else {
        return Ok(None);
    };
    let Capped::Fits(arguments) = arguments else {
        return Ok(Some(Capped::TooHigh));
    };
    Ok(Some(Capped::Fits(Goal::Asked(name.clone()?, arguments))))
}
