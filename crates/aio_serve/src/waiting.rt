//! Requests that may end a task's step: a pause, an await, a sleep.
ghost use Rattle.std.specs.Prelude.{pos, Ok, IfOk};
ghost use Rattle.model_value.specs.declared.request.Request.TheVariants as request;
ghost use Rattle.model_machine.specs.Replies.{pauses, sleeps_for};
ghost use Rattle.aio_body.specs.Asked.{Replies, Serves, IsAskingFor, IsGoing};
ghost use Rattle.aio_serve.specs.Alarm.{IsAlarmed};
ghost use Rattle.aio_body.specs.Stands.{Possible};

use aio_base::{Action, Memory, Value};
use aio_body::{RequestReply, ResumePoint, RunState, as_int, bad_argument, replied};
use aio_extra::Extra;
use aio_task::{FutureId, TimerId};
use std::alloc::Global;

/// The greatest number of a script.
const MOST: u64 = 0x7FFF_FFFF_FFFF_FFFF;

/// A bare `yield`.
pub fn pause<X: Extra>(body: &mut RunState<X>, task: u32) -> RequestReply
    requires { Possible X.added (IsGoing task) body.old }
    ensures { Replies X.added task (pauses task) body.old body.new (Ok result) }
{
    body.parts.pause(task);
    RequestReply::Suspends
}

/// What is done is awaited at once.
pub fn await_value<X: Extra>(
    body: &mut RunState<X>,
    alloc: Global,
    task: u32,
    x: &Value,
) -> Result<RequestReply, Memory>
    requires { Possible X.added (IsAskingFor task (request.Await x.now)) body.old }
    ensures { Serves X.added task (request.Await x.now) body.old body.new result }
{
    let Some(on) = body.as_awaited(x) else {
        return bad_argument(alloc);
    };
    if let Some(outcome) = body.parts.outcome(on) {
        return replied(outcome);
    }
    let _suspension = body.parts.suspend(task, on);
    Ok(RequestReply::Suspends)
}

/// A sleep of 0 or less is a bare `yield`.
pub fn sleep<X: Extra>(
    body: &mut RunState<X>,
    alloc: Global,
    task: u32,
    delay: &Value,
) -> Result<RequestReply, Memory>
    requires { Possible X.added (IsGoing task) body.old }
    ensures { Serves X.added task (request.Sleep delay.now) body.old body.new result }
{
    match as_int(delay) {
        Some(delay) if delay > 0 => sleep_for(body, alloc, task, delay as u64),
        Some(_) => Ok(pause(body, task)),
        None => bad_argument(alloc),
    }
}

fn sleep_for<X: Extra>(
    body: &mut RunState<X>,
    alloc: Global,
    task: u32,
    delay: u64,
) -> Result<RequestReply, Memory>
    requires { Possible X.added (IsGoing task) body.old }
    ensures { Replies X.added task (sleeps_for task (pos delay)) body.old body.new result }
{
    let (timer, future) = alarm(body, alloc, task, delay)?;
    let _suspension = body.parts.suspend(task, future);
    body.stand_far(task, ResumePoint::Sleeping { timer, future })?;
    Ok(RequestReply::Suspends)
}

// A future of a sleep, which a timer's handle will resolve.
fn alarm<X: Extra>(
    body: &mut RunState<X>,
    alloc: Global,
    task: u32,
    delay: u64,
) -> Result<(TimerId, FutureId), Memory>
    requires { Possible X.added (IsGoing task) body.old }
    ensures { IfOk result (λ made. IsAlarmed task delay made.0 made.1 body.old body.new) }
{
    let future = body.parts.new_plain(alloc)?;
    let when = body.parts.now().saturating_add(delay).min(MOST);
    let ticket = body.parts.ticket(alloc)?;
    let action = Action::SleepDone { task, future };
    match body.parts.at(alloc, when, ticket, action) {
        Ok(timer) => Ok((timer, future)),
        Err(unplaced) => Err(unplaced.cause),
    }
}
