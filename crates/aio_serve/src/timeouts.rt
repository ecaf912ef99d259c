//! Requests of timeouts.
ghost use Rattle.std.specs.Prelude.{◌≡◌, ℕ, Ok, IfOk};
ghost use Rattle.model_value.specs.declared.action.Action.TheVariants.{Fires};
ghost use Rattle.model_value.specs.declared.request.Request.TheVariants as request;
ghost use Rattle.model_loop.specs.Loop.{Loop};
ghost use Rattle.model_loop.specs.Timeouts.{fire, has_expired, reschedule_exception, timeout_of};
ghost use Rattle.model_machine.specs.State.{State, in_loop};
ghost use Rattle.aio_task.specs.Keeps.{NameMap};
ghost use Rattle.aio_timeout.specs.Kept.{AreTimeouts};
ghost use Rattle.aio_timeout.specs.States.{state_of};
ghost use Rattle.aio_body.specs.declared.reply.RequestReply.TheVariants.{Raises};
ghost use Rattle.aio_body.specs.Asked.{SomeGoes, Serves, IsAskingFor, IsGoing};
ghost use Rattle.aio_body.specs.Stands.{Context, Possible};
ghost use Rattle.aio_body.specs.Taken.{IsTaken, IsAfterCallback};
ghost use Rattle.aio_serve.specs.Left.{left_as};

use aio_base::{Exc, Memory, Value};
use aio_body::{
    MOST_IDS, RequestReply, RunState, as_delay, as_timeout, bad_argument, out_of_range,
};
use aio_extra::Extra;
use aio_timeout::{Rescheduled, TimeoutExit, TimeoutState, timeout_exception};
use std::alloc::Global;

/// The beginning of a `with timeout(delay)`, in milliseconds or None (`Timeout.__aenter__`).
pub fn enter_timeout<X: Extra>(
    body: &mut RunState<X>,
    alloc: Global,
    task: u32,
    delay: &Value,
) -> Result<RequestReply, Memory>
    requires { Possible X.added (IsGoing task) body.old }
    ensures { Serves X.added task (request.TimeoutEnter delay.now) body.old body.new result }
{
    let Some(delay) = as_delay(delay) else {
        return bad_argument(alloc);
    };
    if body.timeouts.count() >= MOST_IDS {
        return out_of_range(alloc);
    }
    let id = body
        .timeouts
        .enter(alloc, task, delay.number(), &mut body.parts)?;
    Ok(RequestReply::Answers(Value::timeout(id)))
}

/// The end of that block, with the exception that leaves it. TimeoutError by `Timeout.__aexit__`.
pub fn exit_timeout<X: Extra>(
    body: &mut RunState<X>,
    alloc: Global,
    task: u32,
    timeout: &Value,
    fault: Option<Exc>,
) -> Result<RequestReply, Memory>
    requires { Possible X.added
        (IsAskingFor task (request.TimeoutExit timeout.now fault)) body.old }
    ensures { Serves X.added task (request.TimeoutExit timeout.now fault) body.old body.new result }
{
    let Some(id) = as_timeout(timeout) else {
        return bad_argument(alloc);
    };
    let exit = body.timeouts.exit(id, fault, &mut body.parts);
    Ok(left(exit))
}

// How the coroutine goes on after a block that was left.
fn left(exit: TimeoutExit) -> RequestReply
    ensures { result ≡ left_as exit }
{
    match exit {
        TimeoutExit::Passes => RequestReply::Answers(Value::nothing()),
        TimeoutExit::TimedOut => RequestReply::Raises(timeout_exception()),
    }
}

/// A value may name a timeout that was not made: such a one is finished.
pub fn reschedule<X: Extra>(
    body: &mut RunState<X>,
    alloc: Global,
    timeout: &Value,
    when: &Value,
) -> Result<RequestReply, Memory>
    requires { Possible X.added SomeGoes body.old }
    ensures { (task : ℕ)
        → Serves X.added task (request.Reschedule timeout.now when.now) body.old body.new result }
{
    let Some(id) = as_timeout(timeout) else {
        return bad_argument(alloc);
    };
    let Some(when) = as_delay(when) else {
        return bad_argument(alloc);
    };
    if id as usize >= body.timeouts.count() {
        return refused(alloc, TimeoutState::Finished);
    }
    match body
        .timeouts
        .reschedule(alloc, id, when.number(), &mut body.parts)?
    {
        Rescheduled::Set => Ok(RequestReply::Answers(Value::nothing())),
        Rescheduled::BadState(state) => refused(alloc, state),
    }
}

fn refused(alloc: Global, state: TimeoutState) -> Result<RequestReply, Memory>
    ensures { IfOk result (λ said. said ≡ Raises (reschedule_exception (state_of state))) }
{
    Ok(RequestReply::Raises(state.fault(alloc)?))
}

/// `expired(o)`.
pub fn expired<X: Extra>(
    body: &RunState<X>,
    alloc: Global,
    timeout: &Value,
) -> Result<RequestReply, Memory>
    ensures { (task : ℕ)
        → Serves X.added task (request.Expired timeout.now) body.now body.now result }
{
    match as_timeout(timeout) {
        Some(id) => Ok(RequestReply::Answers(Value::bool(has_expired(body, id)))),
        None => bad_argument(alloc),
    }
}

fn has_expired<X: Extra>(body: &RunState<X>, id: u32) -> bool
    ensures { (t : NameMap) (l : Loop) → AreTimeouts t l.parts body.now.timeouts l.timeouts
        → result ≡ has_expired (timeout_of l id).state }
{
    if id as usize >= body.timeouts.count() {
        return false;
    }
    body.timeouts.expired(id)
}

/// The time of a timeout is over.
pub fn fire<X: Extra>(body: &mut RunState<X>, timeout: u32)
    requires { Possible X.added (IsTaken (Fires timeout)) body.old }
    ensures { (c : Context X.added) (s : State X.added.Kept) → IsTaken (Fires timeout) c body.old s
        → IsAfterCallback c body.new (in_loop (fire timeout) s) }
{
    body.timeouts.fire(timeout, &mut body.parts);
}
