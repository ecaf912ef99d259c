//! What a `yield from` hands over to.
ghost use Rattle.std.specs.Prelude.{◌≡◌, Ok, IfOk, IfErr, nat_eq, option_map};
ghost use Rattle.std.specs.Rc.{rc_str_bytes};
ghost use Rattle.model_tree.specs.Syntax.{Exprs, exprs, Target as PlainTarget, Await, Call};
ghost use Rattle.model_tree.specs.Known.{request_of};
ghost use Rattle.model_text.specs.Naming.{both, if_known, if_arity, is_variable, all_meant, counted, missing, callee_of, passed};
ghost use Rattle.model_text.specs.Naming.{request_target, spawn_target, create_by, create_target, listen_by, listen_target, called_target, target_of};
ghost use Rattle.script_term.specs.Spelled.{plain_goal};
ghost use Rattle.aio_program.specs.Target.{plain_target};
ghost use Rattle.script_naming.specs.Gives.{Gives, Fails};

use crate::both::{both, if_arity};
use crate::known::request_arity;
use crate::meaning::{all_meant, one_argument};
use crate::scope::Scope;
use aio_program::Target;
use aio_syntax::{ExprList, request_of};
use model_text::Cause;
use model_tree::RequestName;
use script_fault::LineFault;
use script_term::{Arguments, Goal, Term};
use std::alloc::Global;
use std::rc::RcStr;

/// What a `yield from` hands over to, or the least cause why it has no meaning.
pub fn target_of(alloc: Global, scope: &Scope<'_, '_>, goal: &Goal) -> Result<Target, LineFault>
    ensures { Gives plain_target (target_of scope.now (plain_goal goal.now)) result }
{
    match goal {
        Goal::Awaited(name) => awaited(scope, name),
        Goal::Asked(name, arguments) => called_target(alloc, scope, name, arguments),
    }
}

fn awaited(scope: &Scope<'_, '_>, name: &RcStr) -> Result<Target, LineFault>
    ensures { Gives plain_target (if_known (is_variable scope.now (rc_str_bytes name.now))
        (Await (rc_str_bytes name.now))) result }
{
    if scope.is_variable(name.as_str()) {
        Ok(Target::Await(name.clone()?))
    } else {
        Err(LineFault::Refused(Cause::Name))
    }
}

/// A request, or else a coroutine of the script.
fn called_target(
    alloc: Global,
    scope: &Scope<'_, '_>,
    name: &RcStr,
    arguments: &Arguments,
) -> Result<Target, LineFault>
    ensures { Gives plain_target (called_target scope.now (rc_str_bytes name.now)
        (request_of (rc_str_bytes name.now)) (all_meant scope.now arguments.now.before.items)
        (option_map rc_str_bytes arguments.now.bare)
        (all_meant scope.now arguments.now.after.items))
        result }
{
    match request_of(name.as_str()) {
        Some(request) => request_target(alloc, scope, request, arguments.before.as_slice()),
        None => coroutine_target(alloc, scope, name, arguments),
    }
}

fn coroutine_target(
    alloc: Global,
    scope: &Scope<'_, '_>,
    name: &RcStr,
    arguments: &Arguments,
) -> Result<Target, LineFault>
    ensures { Gives plain_target (called_target scope.now (rc_str_bytes name.now) None
        (all_meant scope.now arguments.now.before.items)
        (option_map rc_str_bytes arguments.now.bare)
        (all_meant scope.now arguments.now.after.items)) result }
{
    let before = arguments.before.as_slice();
    let after = arguments.after.as_slice();
    let word = name.as_str();
    if word == "spawn" {
        spawn_target(alloc, scope, &arguments.bare, after)
    } else if word == "create" {
        create_target(alloc, scope, before, &arguments.bare, after)
    } else if word == "listen" {
        listen_target(alloc, scope, before, &arguments.bare, after)
    } else {
        call_target(alloc, scope, name, before)
    }
}

/// As many arguments as are wanted.
fn counted(
    alloc: Global,
    scope: &Scope<'_, '_>,
    arguments: &[Term],
    count: usize,
) -> Result<ExprList, LineFault>
    ensures { Gives (λ all. all)
        (counted count (λ all. all) (all_meant scope.now arguments.now)) result }
{
    let all = all_meant(alloc, scope, arguments)?;
    if_arity(all.len() == count, ExprList::of(all))
}

fn request_target(
    alloc: Global,
    scope: &Scope<'_, '_>,
    request: RequestName,
    arguments: &[Term],
) -> Result<Target, LineFault>
    ensures { Gives plain_target
        (request_target scope.now request (all_meant scope.now arguments.now))
        result }
{
    let arguments = counted(alloc, scope, arguments, request_arity(request))?;
    Ok(Target::Ask(request, arguments))
}

/// A coroutine of the script with as many arguments as it has parameters.
fn passed(
    alloc: Global,
    scope: &Scope<'_, '_>,
    name: &RcStr,
    arguments: &[Term],
) -> Result<(RcStr, ExprList), LineFault>
    ensures name { IfOk result (λ pair. rc_str_bytes pair.0 ≡ rc_str_bytes name.now) }
    ensures arguments { IfOk result (λ pair. (target : Exprs → PlainTarget)
        → passed scope.now (callee_of scope.now (rc_str_bytes name.now)) target
        (all_meant scope.now arguments.now) ≡ Ok (target (exprs pair.1))) }
    ensures fault { IfErr result (λ fault. (target : Exprs → PlainTarget)
        → Fails (passed scope.now (callee_of scope.now (rc_str_bytes name.now)) target
        (all_meant scope.now arguments.now)) fault) }
{
    let Some(parameters) = scope.callee_of(name.as_str()) else {
        return Err(LineFault::Refused(Cause::Name));
    };
    let arguments = counted(alloc, scope, arguments, parameters)?;
    Ok((name.clone()?, arguments))
}

fn call_target(
    alloc: Global,
    scope: &Scope<'_, '_>,
    name: &RcStr,
    arguments: &[Term],
) -> Result<Target, LineFault>
    ensures { Gives plain_target (passed scope.now (callee_of scope.now (rc_str_bytes name.now))
        (Call (rc_str_bytes name.now)) (all_meant scope.now arguments.now)) result }
{
    let (name, arguments) = passed(alloc, scope, name, arguments)?;
    Ok(Target::Call(name, arguments))
}

/// `spawn(NAME, ..)`.
fn spawn_target(
    alloc: Global,
    scope: &Scope<'_, '_>,
    bare: &Option<RcStr>,
    arguments: &[Term],
) -> Result<Target, LineFault>
    ensures { Gives plain_target (spawn_target scope.now (option_map rc_str_bytes bare.now)
        (all_meant scope.now arguments.now)) result }
{
    let Some(name) = bare else {
        return Err(LineFault::Refused(Cause::Arity));
    };
    let (name, arguments) = passed(alloc, scope, name, arguments)?;
    Ok(Target::SpawnTask(name, arguments))
}

/// Too few arguments.
fn missing(alloc: Global, scope: &Scope<'_, '_>, arguments: &[Term]) -> Result<Target, LineFault>
    ensures { Gives plain_target (missing (all_meant scope.now arguments.now)) result }
{
    let _all = all_meant(alloc, scope, arguments)?;
    Err(LineFault::Refused(Cause::Arity))
}

/// `create(g, NAME, ..)`.
fn create_target(
    alloc: Global,
    scope: &Scope<'_, '_>,
    before: &[Term],
    bare: &Option<RcStr>,
    after: &[Term],
) -> Result<Target, LineFault>
    ensures { Gives plain_target (create_target scope.now (all_meant scope.now before.now)
        (option_map rc_str_bytes bare.now) (all_meant scope.now after.now)) result }
{
    match bare {
        Some(name) => create_by(alloc, scope, before, name, after),
        None => missing(alloc, scope, before),
    }
}

fn create_by(
    alloc: Global,
    scope: &Scope<'_, '_>,
    before: &[Term],
    name: &RcStr,
    after: &[Term],
) -> Result<Target, LineFault>
    ensures { Gives plain_target (create_by scope.now (callee_of scope.now (rc_str_bytes name.now))
        (rc_str_bytes name.now) (all_meant scope.now before.now) (all_meant scope.now after.now))
        result }
{
    let Some(parameters) = scope.callee_of(name.as_str()) else {
        return Err(LineFault::Refused(Cause::Name));
    };
    // Before the arguments, so that there is none to let go where memory runs out.
    let task = name.clone()?;
    let group = one_argument(alloc, scope, before);
    let arguments = counted(alloc, scope, after, parameters);
    let (group, arguments) = both(group, arguments)?;
    Ok(Target::CreateTask(group, task, arguments))
}

/// `listen(n, NAME)`, whose handler has one parameter.
fn listen_target(
    alloc: Global,
    scope: &Scope<'_, '_>,
    before: &[Term],
    bare: &Option<RcStr>,
    after: &[Term],
) -> Result<Target, LineFault>
    ensures { Gives plain_target (listen_target scope.now (all_meant scope.now before.now)
        (option_map rc_str_bytes bare.now) (all_meant scope.now after.now)) result }
{
    match bare {
        Some(name) => listen_by(alloc, scope, before, name, after),
        None => missing(alloc, scope, before),
    }
}

fn listen_by(
    alloc: Global,
    scope: &Scope<'_, '_>,
    before: &[Term],
    name: &RcStr,
    after: &[Term],
) -> Result<Target, LineFault>
    ensures { Gives plain_target (listen_by scope.now (callee_of scope.now (rc_str_bytes name.now))
        (rc_str_bytes name.now) (all_meant scope.now before.now) (all_meant scope.now after.now))
        result }
{
    let Some(parameters) = scope.callee_of(name.as_str()) else {
        return Err(LineFault::Refused(Cause::Name));
    };
    let port = one_argument(alloc, scope, before);
    let handler = handler_of(alloc, scope, name, parameters, after);
    let (port, handler) = both(port, handler)?;
    Ok(Target::ListenAt(port, handler))
}

fn handler_of(
    alloc: Global,
    scope: &Scope<'_, '_>,
    name: &RcStr,
    parameters: usize,
    after: &[Term],
) -> Result<RcStr, LineFault>
    ensures { Gives rc_str_bytes (both (λ none handler. handler)
        (counted 0 (λ all. all) (all_meant scope.now after.now))
        (if_arity (nat_eq parameters 1) (rc_str_bytes name.now))) result }
{
    let none = counted(alloc, scope, after, 0);
    let handler = if_arity(parameters == 1, name.clone()?);
    let (_, handler) = both(none, handler)?;
    Ok(handler)
}
