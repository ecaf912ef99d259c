//! What comes of a call on transports, as the task hears it.
ghost use Rattle.std.specs.Prelude.{◌≡◌, IfOk};
ghost use Rattle.aio_streaming.specs.Answered.{AnsweredAs, wrote_as};
ghost use Rattle.aio_streaming.specs.Done.{done_as};
ghost use Rattle.aio_streaming.specs.Written.{fault_in, limited_as};

use aio_base::{Exc, Input, Kind, Memory, Value};
use aio_body::{RequestReply, or_stop, raises};
use aio_wire::Stop;
use model_stream::{Limited, Wrote};
use std::alloc::Global;

/// None, once what was asked for is done.
pub fn done(said: Result<(), Stop>) -> Result<RequestReply, Stop>
    ensures { result ≡ done_as said }
{
    match said {
        Ok(()) => Ok(RequestReply::Answers(Value::nothing())),
        Err(stop) => Err(stop),
    }
}

/// A write that is refused after the end was written.
pub fn wrote(alloc: Global, said: Result<Wrote, Stop>) -> Result<RequestReply, Stop>
    ensures { AnsweredAs wrote_as said result }
{
    match said {
        Ok(Wrote::Done) => Ok(RequestReply::Answers(Value::nothing())),
        Ok(Wrote::AfterEof) => or_stop(raises(
            alloc,
            Kind::RuntimeError,
            "Cannot call write() after write_eof()",
        )),
        Err(stop) => Err(stop),
    }
}

/// Marks that are refused.
pub fn limited(alloc: Global, said: Limited) -> Result<RequestReply, Memory>
    ensures { IfOk result (λ it. it ≡ limited_as said) }
{
    match said {
        Limited::Set => Ok(RequestReply::Answers(Value::nothing())),
        Limited::BadLimits => raises(alloc, Kind::ValueError, "limits"),
    }
}

/// What was waited for came, or an exception did, which is raised.
pub fn fault_of(input: Input) -> Option<Exc>
    ensures { result ≡ fault_in input }
{
    match input {
        Input::Send(_) => None,
        Input::Throw(fault) => Some(fault),
    }
}
