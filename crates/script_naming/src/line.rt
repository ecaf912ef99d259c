//! What a line means.
ghost use Rattle.std.specs.Prelude.{◌≡◌, IfOk, map, option_map};
ghost use Rattle.std.specs.Rc.{rc_str_bytes};
ghost use Rattle.model_tree.specs.Known.{kind_of_name};
ghost use Rattle.model_text.specs.Forms as form;
ghost use Rattle.model_text.specs.Naming.{both, meaning_of, all_meant, target_of};
ghost use Rattle.model_text.specs.SecondPass.{free, free_or_none, kind_meant, value_meant, line_meant};
ghost use Rattle.script_term.specs.Spelled.{plain_goal, plain_spelled};
ghost use Rattle.aio_program.specs.Line.{plain_line};
ghost use Rattle.aio_program.specs.Target.{plain_name};
ghost use Rattle.script_naming.specs.Gives.{Gives};

use crate::both::both;
use crate::known::{is_taken, kind_of_name};
use crate::meaning::{all_meant, meaning_of};
use crate::scope::Scope;
use crate::target::target_of;
use aio_program::Line;
use aio_syntax::{Expr, ExprList};
use model_text::Cause;
use model_value::Kind;
use script_fault::LineFault;
use script_term::{Goal, Spelled, Term};
use std::alloc::{AllocError, Global};
use std::rc::RcStr;

/// What a line means, or the least cause why it has no meaning.
pub fn line_meant(alloc: Global, scope: &Scope<'_, '_>, form: &Spelled) -> Result<Line, LineFault>
    ensures { Gives plain_line (line_meant scope.now (plain_spelled form.now)) result }
{
    match form {
        Spelled::Profile(number) => Ok(Line::Profile(*number)),
        Spelled::Def(name, parameters) => Ok(Line::Def(
            name.clone()?,
            shared_names(alloc, parameters.as_slice())?,
        )),
        Spelled::Assign(name, value) => assign(alloc, scope, name, value),
        Spelled::Yield => Ok(Line::Yield),
        Spelled::YieldFrom(into, goal) => yield_from(alloc, scope, into, goal),
        Spelled::Print(items) => {
            let items = all_meant(alloc, scope, items.as_slice())?;
            Ok(Line::Print(ExprList::of(items)))
        }
        Spelled::Raise(fault) => Ok(Line::Raise(meaning_of(alloc, scope, fault)?)),
        Spelled::Return(value) => Ok(Line::Return(value_meant(alloc, scope, value)?)),
        Spelled::Pass => Ok(Line::Pass),
        Spelled::If(test) => Ok(Line::If(meaning_of(alloc, scope, test)?)),
        Spelled::Else => Ok(Line::Else),
        Spelled::While(test) => Ok(Line::While(meaning_of(alloc, scope, test)?)),
        Spelled::Try => Ok(Line::Try),
        Spelled::Except(kind, name) => except(kind, name),
        Spelled::Finally => Ok(Line::Finally),
        Spelled::WithGroup(name) => Ok(Line::WithGroup(free(name)?)),
        Spelled::WithTimeout(delay, name) => with_timeout(alloc, scope, delay, name),
        Spelled::End => Ok(Line::End),
    }
}

/// A name that a line binds: none that the language has for itself.
fn free(name: &RcStr) -> Result<RcStr, LineFault>
    ensures { Gives rc_str_bytes (free (rc_str_bytes name.now)) result }
{
    if is_taken(name.as_str()) {
        Err(LineFault::Refused(Cause::Name))
    } else {
        Ok(name.clone()?)
    }
}

fn free_or_none(name: &Option<RcStr>) -> Result<Option<RcStr>, LineFault>
    ensures { Gives plain_name (free_or_none (option_map rc_str_bytes name.now)) result }
{
    match name {
        Some(name) => Ok(Some(free(name)?)),
        None => Ok(None),
    }
}

fn kind_meant(kind: &RcStr) -> Result<Kind, LineFault>
    ensures { Gives (λ kind. kind) (kind_meant (kind_of_name (rc_str_bytes kind.now))) result }
{
    kind_of_name(kind.as_str()).ok_or(LineFault::Refused(Cause::Name))
}

fn value_meant(
    alloc: Global,
    scope: &Scope<'_, '_>,
    value: &Option<Term>,
) -> Result<Option<Expr>, LineFault>
    ensures { Gives (λ value. value) (value_meant scope.now value.now) result }
{
    match value {
        Some(value) => Ok(Some(meaning_of(alloc, scope, value)?)),
        None => Ok(None),
    }
}

fn assign(
    alloc: Global,
    scope: &Scope<'_, '_>,
    name: &RcStr,
    value: &Term,
) -> Result<Line, LineFault>
    ensures { Gives plain_line (both form.Assign (free (rc_str_bytes name.now))
        (meaning_of scope.now value.now)) result }
{
    let (name, value) = both(free(name), meaning_of(alloc, scope, value))?;
    Ok(Line::Assign(name, value))
}

fn yield_from(
    alloc: Global,
    scope: &Scope<'_, '_>,
    into: &Option<RcStr>,
    goal: &Goal,
) -> Result<Line, LineFault>
    ensures { Gives plain_line
        (both form.YieldFrom (free_or_none (option_map rc_str_bytes into.now))
        (target_of scope.now (plain_goal goal.now))) result }
{
    let (into, target) = both(free_or_none(into), target_of(alloc, scope, goal))?;
    Ok(Line::YieldFrom(into, target))
}

fn except(kind: &RcStr, name: &Option<RcStr>) -> Result<Line, LineFault>
    ensures { Gives plain_line (both form.Except (kind_meant (kind_of_name (rc_str_bytes kind.now)))
        (free_or_none (option_map rc_str_bytes name.now))) result }
{
    let (kind, name) = both(kind_meant(kind), free_or_none(name))?;
    Ok(Line::Except(kind, name))
}

fn with_timeout(
    alloc: Global,
    scope: &Scope<'_, '_>,
    delay: &Term,
    name: &RcStr,
) -> Result<Line, LineFault>
    ensures { Gives plain_line (both form.WithTimeout (meaning_of scope.now delay.now)
        (free (rc_str_bytes name.now))) result }
{
    let (delay, name) = both(meaning_of(alloc, scope, delay), free(name))?;
    Ok(Line::WithTimeout(delay, name))
}

/// The same names, shared.
pub fn shared_names(alloc: Global, names: &[RcStr]) -> Result<Vec<RcStr>, AllocError>
    ensures { IfOk result (λ shared. map rc_str_bytes shared.items ≡ map rc_str_bytes names.now) }
{
    let mut shared = Vec::new(alloc);
    for name in names {
        shared.push(name.clone()?)?;
    }
    Ok(shared)
}
