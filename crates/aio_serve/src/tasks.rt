//! Requests of tasks, and their cancels.
ghost use Rattle.std.specs.Prelude.{◌≡◌, ℕ, pos, ◌≤◌};
ghost use Rattle.model_value.specs.Number.{most};
ghost use Rattle.model_value.specs.Value.{Int};
ghost use Rattle.model_value.specs.declared.request.Request.TheVariants as request;
ghost use Rattle.aio_body.specs.declared.reply.RequestReply.TheVariants.{Answers};
ghost use Rattle.aio_body.specs.Asked.{SomeGoes, Serves};
ghost use Rattle.aio_body.specs.Stands.{Possible};

use aio_base::{Memory, Value, ValueList};
use aio_body::{MOST_IDS, RequestReply, RunState, as_task, bad_argument, out_of_range};
use aio_extra::Extra;
use std::alloc::Global;

/// `cancel(x)`: whether there was anything to cancel (`Task.cancel`, `Future.cancel`).
pub fn cancel<X: Extra>(
    body: &mut RunState<X>,
    alloc: Global,
    x: &Value,
) -> Result<RequestReply, Memory>
    requires { Possible X.added SomeGoes body.old }
    ensures { (task : ℕ) → Serves X.added task (request.Cancel x.now) body.old body.new result }
{
    match body.as_awaited(x) {
        Some(on) => Ok(RequestReply::Answers(Value::bool(body.parts.cancel(on)))),
        None => bad_argument(alloc),
    }
}

/// `cancelling(t)`.
pub fn cancelling<X: Extra>(
    body: &RunState<X>,
    alloc: Global,
    x: &Value,
) -> Result<RequestReply, Memory>
    requires { Possible X.added SomeGoes body.now }
    ensures { (task : ℕ) → Serves X.added task (request.Cancelling x.now) body.now body.now result }
{
    match as_task(x) {
        Some(task) => Ok(number(body.parts.cancelling(task))),
        None => bad_argument(alloc),
    }
}

/// `uncancel(t)`: the count after it.
pub fn uncancel<X: Extra>(
    body: &mut RunState<X>,
    alloc: Global,
    x: &Value,
) -> Result<RequestReply, Memory>
    requires { Possible X.added SomeGoes body.old }
    ensures { (task : ℕ) → Serves X.added task (request.Uncancel x.now) body.old body.new result }
{
    match as_task(x) {
        Some(task) => Ok(number(body.parts.uncancel(task))),
        None => bad_argument(alloc),
    }
}

/// `spawn(NAME, ..)`. OverflowError where no more tasks can be numbered.
pub fn spawn<X: Extra>(
    body: &mut RunState<X>,
    alloc: Global,
    coroutine: u32,
    arguments: &ValueList,
) -> Result<RequestReply, Memory>
    requires { Possible X.added SomeGoes body.old }
    ensures { (task : ℕ)
        → Serves X.added task (request.Spawn coroutine arguments.now) body.old body.new result }
{
    if body.slots.len() >= MOST_IDS {
        return out_of_range(alloc);
    }
    body.hold(alloc, coroutine, arguments)?;
    let task = body.parts.spawn(alloc)?;
    Ok(RequestReply::Answers(Value::task(task)))
}

/// A number that a script can have.
pub fn number(count: u64) -> RequestReply
    requires { count ≤ most }
    ensures { result ≡ Answers (Int (pos count)) }
{
    RequestReply::Answers(Value::int(count as i64))
}
