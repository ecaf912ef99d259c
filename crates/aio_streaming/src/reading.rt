//! Requests on what is read: connections, and the pipes that children write.
ghost use Rattle.std.specs.Prelude.{◌≡◌, [], ◌++◌, IfOk};
ghost use Rattle.model_value.specs.declared.request.Request.TheVariants as request;
ghost use Rattle.model_value.specs.Value.{Bytes};
ghost use Rattle.model_machine.specs.Replies.{reads, reads_all};
ghost use Rattle.aio_body.specs.Asked.{IsAskingFor, Serves};
ghost use Rattle.aio_body.specs.Stands.{Possible};
ghost use Rattle.aio_transports.specs.Readers.{reader_as};
ghost use Rattle.aio_streaming.specs.Counts.{natural_in};
ghost use Rattle.aio_streaming.specs.Going.{RepliesOn, RunsOn};

use aio_base::{Blob, Memory, Value};
use aio_body::{RequestReply, ResumePoint, RunState, as_int, bad_argument};
use aio_connection::{AllGot, StreamGot};
use aio_extra::Extra;
use aio_opened::{as_bytes, as_reader};
use aio_transports::StreamReader;
use model_stream::ReadOp;
use std::alloc::Global;

/// `read(stream, count)`. With a negative count it reads till the end.
pub fn read<X: Extra>(
    body: &mut RunState<X>,
    alloc: Global,
    task: u32,
    stream: &Value,
    count: &Value,
) -> Result<RequestReply, Memory>
    requires { Possible X.added (IsAskingFor task (request.Read stream.now count.now)) body.old }
    ensures { Serves X.added task (request.Read stream.now count.now) body.old body.new result }
{
    let Some(from) = as_reader::<X>(&body.transports, stream) else {
        return bad_argument(alloc);
    };
    match as_int(count) {
        Some(number) => match natural(number) {
            Some(most) => reads(body, alloc, task, from, ReadOp::UpTo(most)),
            None => reads_all(body, alloc, task, from, no_bytes(alloc)),
        },
        None => bad_argument(alloc),
    }
}

/// `readexactly(stream, count)`.
pub fn read_exactly<X: Extra>(
    body: &mut RunState<X>,
    alloc: Global,
    task: u32,
    stream: &Value,
    count: &Value,
) -> Result<RequestReply, Memory>
    requires { Possible X.added (IsAskingFor task (request.ReadExactly stream.now count.now))
        body.old }
    ensures { Serves X.added task (request.ReadExactly stream.now count.now)
        body.old body.new result }
{
    let Some(from) = as_reader::<X>(&body.transports, stream) else {
        return bad_argument(alloc);
    };
    match as_int(count) {
        Some(count) => reads(body, alloc, task, from, ReadOp::Exactly(count)),
        None => bad_argument(alloc),
    }
}

/// `readuntil(stream, separator)`.
pub fn read_until<X: Extra>(
    body: &mut RunState<X>,
    alloc: Global,
    task: u32,
    stream: &Value,
    separator: &Value,
) -> Result<RequestReply, Memory>
    requires { Possible X.added (IsAskingFor task (request.ReadUntil stream.now separator.now))
        body.old }
    ensures { Serves X.added task (request.ReadUntil stream.now separator.now)
        body.old body.new result }
{
    let Some(from) = as_reader::<X>(&body.transports, stream) else {
        return bad_argument(alloc);
    };
    match as_bytes(separator) {
        Some(bytes) => {
            let copy = blob_of(alloc, bytes.as_slice())?;
            reads(body, alloc, task, from, ReadOp::Until(copy))
        }
        None => bad_argument(alloc),
    }
}

/// `readline(stream)`.
pub fn read_line<X: Extra>(
    body: &mut RunState<X>,
    alloc: Global,
    task: u32,
    stream: &Value,
) -> Result<RequestReply, Memory>
    requires { Possible X.added (IsAskingFor task (request.ReadLine stream.now)) body.old }
    ensures { Serves X.added task (request.ReadLine stream.now) body.old body.new result }
{
    match as_reader::<X>(&body.transports, stream) {
        Some(from) => reads(body, alloc, task, from, ReadOp::Line),
        None => bad_argument(alloc),
    }
}

/// A read looks at what is held, as it begins and again at each waking.
pub fn reads<X: Extra>(
    body: &mut RunState<X>,
    alloc: Global,
    task: u32,
    from: StreamReader,
    op: ReadOp<Blob>,
) -> Result<RequestReply, Memory>
    requires { Possible X.added (RunsOn task) body.old }
    ensures { RepliesOn X.added task (reads task op (reader_as from)) body.old body.new result }
{
    match body.transports.read(alloc, from, &op, &mut body.parts) {
        Ok(StreamGot::Bytes(bytes)) => {
            forget_op(op);
            answers(alloc, bytes)
        }
        Ok(StreamGot::Raises(fault)) => {
            forget_op(op);
            Ok(RequestReply::Raises(fault))
        }
        Ok(StreamGot::Waits(on)) => {
            let _suspension = body.parts.suspend(task, on);
            body.stand_far(task, ResumePoint::Reading { from, op, on })?;
            Ok(RequestReply::Suspends)
        }
        Err(Memory) => {
            forget_op(op);
            Err(Memory)
        }
    }
}

/// The same with a negative count: what each look took is joined.
pub fn reads_all<X: Extra>(
    body: &mut RunState<X>,
    alloc: Global,
    task: u32,
    from: StreamReader,
    taken: Blob,
) -> Result<RequestReply, Memory>
    requires { Possible X.added (RunsOn task) body.old }
    ensures { RepliesOn X.added task (reads_all task (reader_as from) taken)
        body.old body.new result }
{
    match body.transports.read_all(alloc, from, &mut body.parts) {
        Ok(AllGot { taken: more, got }) => match got {
            StreamGot::Bytes(rest) => {
                forget_blob(rest);
                match joined(taken, more) {
                    Ok(all) => answers(alloc, all),
                    Err(Memory) => Err(Memory),
                }
            }
            StreamGot::Raises(fault) => {
                forget_blob(taken);
                forget_blob(more);
                Ok(RequestReply::Raises(fault))
            }
            StreamGot::Waits(on) => match joined(taken, more) {
                Ok(taken) => {
                    let _suspension = body.parts.suspend(task, on);
                    body.stand_far(task, ResumePoint::ReadingAll { from, taken, on })?;
                    Ok(RequestReply::Suspends)
                }
                Err(Memory) => Err(Memory),
            },
        },
        Err(Memory) => {
            forget_blob(taken);
            Err(Memory)
        }
    }
}

// None where it is negative.
fn natural(number: i64) -> Option<u64>
    ensures { result ≡ natural_in number }
{
    if number < 0 {
        None
    } else {
        Some(number as u64)
    }
}

// The bytes that were read are the answer.
fn answers(alloc: Global, bytes: Blob) -> Result<RequestReply, Memory>
    ensures { IfOk result (λ said. said ≡ RequestReply.Answers (Bytes bytes)) }
{
    match Value::bytes_from(alloc, bytes.items()) {
        Ok(value) => Ok(RequestReply::Answers(value)),
        Err(Memory) => Err(Memory),
    }
}

/// An operation is let go.
pub fn forget_op(_op: ReadOp<Blob>) {}

/// Bytes are let go.
pub fn forget_blob(_blob: Blob) {}

fn no_bytes(alloc: Global) -> Blob
    ensures { result ≡ [] }
{
    Blob::of(Vec::new(alloc))
}

// A copy.
fn blob_of(alloc: Global, bytes: &[u8]) -> Result<Blob, Memory>
    ensures { IfOk result (λ blob. blob ≡ bytes.now) }
{
    let mut copy = Vec::new(alloc);
    copy.extend_from_slice(bytes)?;
    Ok(Blob::of(copy))
}

// These bytes, and those after them: the first are extended where they stand.
fn joined(mut front: Blob, back: Blob) -> Result<Blob, Memory>
    ensures { IfOk result (λ both. both ≡ front ++ back) }
{
    front.extend(back.items())?;
    Ok(front)
}
