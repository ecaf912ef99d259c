//! What a task's request comes to.
ghost use Rattle.std.specs.Prelude.{◌≡◌, IfOk};
ghost use Rattle.model_value.specs.Value.{exception_of};
ghost use Rattle.model_says.specs.Operations.{out_of_range as plain_out_of_range};
ghost use Rattle.model_says.specs.Requests.{bad_argument as plain_bad_argument};
ghost use Rattle.model_loop.specs.Tasks.{cancelled_error as plain_cancelled_error};
ghost use Rattle.model_machine.specs.Outcomes.{input_of as plain_input_of};
ghost use Rattle.aio_body.specs.Asking.{or_stop};
ghost use Rattle.aio_body.specs.Outcomes.{RepliesAs, reply_of as plain_reply_of};

use aio_base::{Exc, Input, Kind, Memory, Outcome, Value, exception};
use aio_wire::Stop;
use std::alloc::Global;

/// What a request comes to: the coroutine goes on with a value, or with an exception that is raised
/// in it, or the task's step ends.
#[derive(Drop)]
pub enum RequestReply {
    Answers(Value),
    Raises(Exc),
    Suspends,
}

/// How many tasks, futures of `future()`, timeouts or groups can be made.
pub const MOST_IDS: usize = 0xFFFF_FFFF;

/// An exception of this kind with this text.
pub fn raises(alloc: Global, kind: Kind, text: &str) -> Result<RequestReply, Memory>
    ensures { IfOk result (λ said. said ≡ RequestReply.Raises (exception_of kind text.now)) }
{
    Ok(RequestReply::Raises(exception(alloc, kind, text)?))
}

/// TypeError `bad argument`, raised in the coroutine.
pub fn bad_argument(alloc: Global) -> Result<RequestReply, Memory>
    ensures { IfOk result (λ said. said ≡ RequestReply.Raises plain_bad_argument) }
{
    raises(alloc, Kind::TypeError, "bad argument")
}

/// OverflowError `out of range`, raised in the coroutine.
pub fn out_of_range(alloc: Global) -> Result<RequestReply, Memory>
    ensures { IfOk result (λ said. said ≡ RequestReply.Raises plain_out_of_range) }
{
    raises(alloc, Kind::OverflowError, "out of range")
}

/// What an input is to the coroutine that it answers.
pub fn reply_of(input: Input) -> RequestReply
    ensures { result ≡ plain_reply_of input }
{
    match input {
        Input::Send(value) => RequestReply::Answers(value),
        Input::Throw(fault) => RequestReply::Raises(fault),
    }
}

/// What an outcome is to a task that is woken with it.
pub fn input_of(outcome: &Outcome) -> Result<Input, Memory>
    ensures { IfOk result (λ input. input ≡ plain_input_of outcome.now) }
{
    match outcome {
        Outcome::Value(value) => Ok(Input::Send(value.clone()?)),
        Outcome::Failed(fault) => Ok(Input::Throw(fault.clone()?)),
        Outcome::Cancelled => Ok(Input::Throw(cancelled_error())),
    }
}

/// The exception that a cancel throws, which has no text.
pub fn cancelled_error() -> Exc
    ensures { result ≡ plain_cancelled_error }
{
    Exc::bare(Kind::CancelledError)
}

/// What an outcome is to whoever asks for it.
pub fn replied(outcome: &Outcome) -> Result<RequestReply, Memory>
    ensures { IfOk result (RepliesAs outcome.now) }
{
    Ok(reply_of(input_of(outcome)?))
}

/// What comes of a call that asks nothing.
pub fn or_stop<T>(said: Result<T, Memory>) -> Result<T, Stop>
    ensures { result ≡ or_stop said }
{
    match said {
        Ok(said) => Ok(said),
        Err(Memory) => Err(Stop::Memory),
    }
}
