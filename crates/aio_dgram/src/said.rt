//! What is raised, and what keys are places of.
ghost use Rattle.std.specs.Prelude.{◌≡◌, IfOk};
ghost use Rattle.model_machine.specs.Extra.{unknown_code};
ghost use Rattle.model_says.specs.Operations.{out_of_range as plain_out_of_range};
ghost use Rattle.model_says.specs.Requests.{bad_argument as plain_bad_argument};
ghost use Rattle.model_reach.specs.Part.{passes, place_of as plain_place_of};
ghost use Rattle.model_dgram.specs.Endpoints.{dgram_part, is_closed};
ghost use Rattle.model_dgram.specs.Opening.{other_answer as plain_other_answer};
ghost use Rattle.model_dgram.specs.Sending.{send_failed as plain_send_failed};
ghost use Rattle.aio_dgram.specs.Woken.{Says};

use aio_base::{Input, Kind, Memory, exception};
use aio_extra::Asked;
use std::alloc::Global;

/// The place of a key among those that were drawn.
pub fn place_of(key: u64) -> u64
    ensures { result ≡ plain_place_of dgram_part key }
{
    key.saturating_sub(3) / 4
}

/// What was waited for is the answer.
pub fn passed(input: Input) -> Asked
    ensures { Says result (passes input) }
{
    match input {
        Input::Send(value) => Asked::Answer(value),
        Input::Throw(fault) => Asked::Raise(fault),
    }
}

pub fn unknown(alloc: Global, code: i64) -> Result<Asked, Memory>
    ensures { IfOk result (λ asked. asked ≡ Asked.Raise (unknown_code code)) }
{
    let text = format!(in alloc; "extra {code}")?;
    let fault = exception(alloc, Kind::NameError, text.as_str());
    drop(text);
    Ok(Asked::Raise(fault?))
}

pub fn bad_argument(alloc: Global) -> Result<Asked, Memory>
    ensures { IfOk result (λ asked. asked ≡ Asked.Raise plain_bad_argument) }
{
    Ok(Asked::Raise(exception(alloc, Kind::TypeError, "bad argument")?))
}

pub fn out_of_range(alloc: Global) -> Result<Asked, Memory>
    ensures { IfOk result (λ asked. asked ≡ Asked.Raise plain_out_of_range) }
{
    Ok(Asked::Raise(exception(alloc, Kind::OverflowError, "out of range")?))
}

/// The endpoint was closed.
pub fn closed(alloc: Global) -> Result<Asked, Memory>
    ensures { IfOk result (λ asked. asked ≡ Asked.Raise is_closed) }
{
    Ok(Asked::Raise(exception(alloc, Kind::RuntimeError, "closed")?))
}

/// The outside answered something else than the next number.
pub fn other_answer(alloc: Global) -> Result<Asked, Memory>
    ensures { IfOk result (λ asked. asked ≡ Asked.Raise plain_other_answer) }
{
    Ok(Asked::Raise(exception(alloc, Kind::OSError, "extra answer")?))
}

/// The outside couldn't send.
pub fn send_failed(alloc: Global) -> Result<Asked, Memory>
    ensures { IfOk result (λ asked. asked ≡ Asked.Raise plain_send_failed) }
{
    Ok(Asked::Raise(exception(alloc, Kind::OSError, "send failed")?))
}
