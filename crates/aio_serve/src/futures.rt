//! Requests of futures.
ghost use Rattle.std.specs.Prelude.{◌≡◌, ℕ, option_map};
ghost use Rattle.model_value.specs.declared.request.Request.TheVariants as request;
ghost use Rattle.model_value.specs.declared.outcome.Outcome.TheVariants.{Failed};
ghost use Rattle.model_machine.specs.Arguments.{as_future};
ghost use Rattle.model_machine.specs.Replies.{given, settles, is_cancelled_as};
ghost use Rattle.std.specs.Option.{option_copied};
ghost use Rattle.aio_body.specs.Asked.{SomeGoes, Replies, Serves};
ghost use Rattle.aio_body.specs.Stands.{Possible};

use aio_base::{Exc, Kind, Memory, Outcome, Value};
use aio_body::{
    MOST_IDS, RequestReply, RunState, as_failure, bad_argument, out_of_range, raises, replied,
};
use aio_extra::Extra;
use std::alloc::Global;

/// `future()`.
pub fn make_future<X: Extra>(body: &mut RunState<X>, alloc: Global) -> Result<RequestReply, Memory>
    requires { Possible X.added SomeGoes body.old }
    ensures { (task : ℕ) → Serves X.added task request.MakeFuture body.old body.new result }
{
    let made = body.futures.len();
    if made >= MOST_IDS {
        return out_of_range(alloc);
    }
    let id = body.parts.new_plain(alloc)?;
    body.futures.push(id)?;
    Ok(RequestReply::Answers(Value::fut(made as u32)))
}

/// `set(f, v)`. InvalidStateError where `f` is done (`Future.set_result`).
pub fn set<X: Extra>(
    body: &mut RunState<X>,
    alloc: Global,
    future: &Value,
    value: Value,
) -> Result<RequestReply, Memory>
    requires { Possible X.added SomeGoes body.old }
    ensures { (task : ℕ)
        → Serves X.added task (request.Set future.now value) body.old body.new result }
{
    settle(body, alloc, future, Some(Outcome::Value(value)))
}

/// `fail(f, e)`. InvalidStateError where `f` is done (`Future.set_exception`); TypeError of a
/// CancelledError.
pub fn fail<X: Extra>(
    body: &mut RunState<X>,
    alloc: Global,
    future: &Value,
    fault: &Value,
) -> Result<RequestReply, Memory>
    requires { Possible X.added SomeGoes body.old }
    ensures { (task : ℕ)
        → Serves X.added task (request.Fail future.now fault.now) body.old body.new result }
{
    let outcome = failed_with(as_failure(fault)?);
    settle(body, alloc, future, outcome)
}

fn failed_with(fault: Option<Exc>) -> Option<Outcome>
    ensures { result ≡ option_map Failed fault }
{
    fault.map(Outcome::Failed)
}

// A done future is refused.
fn settle<X: Extra>(
    body: &mut RunState<X>,
    alloc: Global,
    future: &Value,
    outcome: Option<Outcome>,
) -> Result<RequestReply, Memory>
    requires { Possible X.added SomeGoes body.old }
    ensures { (task : ℕ) → Replies X.added task
        (λ s. given (as_future s future.now)
        (λ on. given outcome (settles on)) s) body.old body.new result }
{
    let Some(on) = body.as_future(future) else {
        return bad_argument(alloc);
    };
    let Some(outcome) = outcome else {
        return bad_argument(alloc);
    };
    if body.parts.outcome(on).is_some() {
        return raises(alloc, Kind::InvalidStateError, "invalid state");
    }
    let _was_pending = body.parts.resolve(on, outcome);
    Ok(RequestReply::Answers(Value::nothing()))
}

/// `done(x)`.
pub fn is_done<X: Extra>(
    body: &RunState<X>,
    alloc: Global,
    x: &Value,
) -> Result<RequestReply, Memory>
    ensures { (task : ℕ) → Serves X.added task (request.IsDone x.now) body.now body.now result }
{
    match body.as_awaited(x) {
        Some(on) => Ok(RequestReply::Answers(Value::bool(body.parts.outcome(on).is_some()))),
        None => bad_argument(alloc),
    }
}

/// `cancelled(x)`.
pub fn is_cancelled<X: Extra>(
    body: &RunState<X>,
    alloc: Global,
    x: &Value,
) -> Result<RequestReply, Memory>
    ensures { (task : ℕ)
        → Serves X.added task (request.IsCancelled x.now) body.now body.now result }
{
    match body.as_awaited(x) {
        Some(on) => Ok(RequestReply::Answers(Value::bool(ended_cancelled(body.parts.outcome(on))))),
        None => bad_argument(alloc),
    }
}

/// `result(x)`. InvalidStateError where `x` is pending (`Future.result`).
pub fn result_of<X: Extra>(
    body: &RunState<X>,
    alloc: Global,
    x: &Value,
) -> Result<RequestReply, Memory>
    ensures { (task : ℕ) → Serves X.added task (request.ResultOf x.now) body.now body.now result }
{
    let Some(on) = body.as_awaited(x) else {
        return bad_argument(alloc);
    };
    match body.parts.outcome(on) {
        Some(outcome) => replied(outcome),
        None => raises(alloc, Kind::InvalidStateError, "Result is not set."),
    }
}

fn ended_cancelled(outcome: Option<&Outcome>) -> bool
    ensures { result ≡ is_cancelled_as (option_copied outcome.entry) }
{
    match outcome {
        Some(Outcome::Cancelled) => true,
        Some(Outcome::Value(_)) => false,
        Some(Outcome::Failed(_)) => false,
        None => false,
    }
}
