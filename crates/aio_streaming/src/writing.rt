//! Requests on what is written: connections, and children's standard inputs.
ghost use Rattle.std.specs.Prelude.{◌≡◌, None};
ghost use Rattle.model_value.specs.declared.request.Request.TheVariants as request;
ghost use Rattle.model_stream.specs.Requests.{write as plain_write, write_eof as plain_write_eof};
ghost use Rattle.model_stream.specs.Streams.{close_server as plain_close_server};
ghost use Rattle.model_machine.specs.Replies.{drains};
ghost use Rattle.aio_wire.specs.Port.{ported};
ghost use Rattle.aio_exchange.specs.Follows.{reach};
ghost use Rattle.aio_transports.specs.Owned.{OwnsTransports};
ghost use Rattle.aio_transports.specs.Standing.{Answers as AnswersTree, Comes as Changes};
ghost use Rattle.aio_body.specs.Asked.{IsAskingFor, Serves};
ghost use Rattle.aio_body.specs.Asking.{Comes, serving};
ghost use Rattle.aio_body.specs.Stands.{Possible};
ghost use Rattle.aio_streaming.specs.Going.{RepliesOn, RunsOn};
ghost use Rattle.aio_streaming.specs.Written.{AwaitsKept, KeepsFuture};

use crate::answers::{done, limited, wrote};
use aio_base::{Memory, Value};
use aio_body::{Near, RequestReply, RunState, as_delay, bad_argument, or_stop, replied};
use aio_connection::Drain;
use aio_extra::Extra;
use aio_opened::{Closable, as_bytes, as_closable, as_conn, as_writer};
use aio_task::FutureId;
use aio_wire::{Port, Stop, Wire};
use model_stream::Wrote;
use model_wire::Handed;
use std::alloc::Global;

/// `write(stream, bytes)`.
pub fn write<W: Wire, X: Extra>(
    body: &mut RunState<X>,
    alloc: Global,
    wire: &mut W,
    task: u32,
    stream: &Value,
    bytes: &Value,
) -> Result<RequestReply, Stop>
    requires { Possible X.added (IsAskingFor task (request.Write stream.now bytes.now)) body.old }
    ensures comes { Comes W.outside
        (serving X.added task (request.Write stream.now bytes.now) body.old body.new)
        (ported wire.old body.old.events) (ported wire.new body.new.events) result }
{
    let Some(whom) = as_writer::<X>(&body.transports, stream) else {
        return or_stop(bad_argument(alloc));
    };
    let Some(piece) = as_bytes(bytes) else {
        return or_stop(bad_argument(alloc));
    };
    wrote(
        alloc,
        write_piece(body, alloc, wire, whom, piece.as_slice()),
    )
}

// A piece is written, through a port on the wire and the body's events.
fn write_piece<W: Wire, X: Extra>(
    body: &mut RunState<X>,
    alloc: Global,
    wire: &mut W,
    whom: Handed,
    piece: &[u8],
) -> Result<Wrote, Stop>
    requires idle { body.old.parts.called ≡ None }
    requires own { OwnsTransports body.old.parts body.old.transports }
    ensures frame { body.new ≡ record body.old {
      parts = body.new.parts;
      events = body.new.events;
      transports = body.new.transports;
    } }
    ensures comes { AnswersTree W.outside (plain_write whom piece.now)
        body.old.transports body.new.transports
        (reach body.old.parts wire.old body.old.events)
        (reach body.new.parts wire.new body.new.events) result }
{
    let mut port = Port::new(wire, &mut body.events);
    body.transports
        .write(alloc, whom, piece, &mut port, &mut body.parts)
}

/// `write_eof(conn)`.
pub fn write_eof<W: Wire, X: Extra>(
    body: &mut RunState<X>,
    alloc: Global,
    wire: &mut W,
    task: u32,
    stream: &Value,
) -> Result<RequestReply, Stop>
    requires { Possible X.added (IsAskingFor task (request.WriteEof stream.now)) body.old }
    ensures comes { Comes W.outside
        (serving X.added task (request.WriteEof stream.now) body.old body.new)
        (ported wire.old body.old.events) (ported wire.new body.new.events) result }
{
    let Some(conn) = as_conn::<X>(&body.transports, stream) else {
        return or_stop(bad_argument(alloc));
    };
    done(write_end(body, alloc, wire, conn))
}

// The end is written, through a port on the wire and the body's events.
fn write_end<W: Wire, X: Extra>(
    body: &mut RunState<X>,
    alloc: Global,
    wire: &mut W,
    conn: u32,
) -> Result<(), Stop>
    requires idle { body.old.parts.called ≡ None }
    requires own { OwnsTransports body.old.parts body.old.transports }
    ensures frame { body.new ≡ record body.old {
      parts = body.new.parts;
      events = body.new.events;
      transports = body.new.transports;
    } }
    ensures comes { Changes W.outside (plain_write_eof conn)
        body.old.transports body.new.transports
        (reach body.old.parts wire.old body.old.events)
        (reach body.new.parts wire.new body.new.events) result }
{
    let mut port = Port::new(wire, &mut body.events);
    body.transports
        .write_eof(alloc, conn, &mut port, &mut body.parts)
}

/// `close(x)`.
pub fn close<W: Wire, X: Extra>(
    body: &mut RunState<X>,
    alloc: Global,
    wire: &mut W,
    task: u32,
    x: &Value,
) -> Result<RequestReply, Stop>
    requires { Possible X.added (IsAskingFor task (request.Close x.now)) body.old }
    ensures comes { Comes W.outside (serving X.added task (request.Close x.now) body.old body.new)
        (ported wire.old body.old.events) (ported wire.new body.new.events) result }
{
    match as_closable::<X>(&body.transports, x) {
        None => or_stop(bad_argument(alloc)),
        Some(Closable::Server(id)) => done(close_listener(body, alloc, wire, id)),
        Some(Closable::Writer(whom)) => {
            done(or_stop(body.transports.close(alloc, whom, &mut body.parts)))
        }
    }
}

// A listener is closed, through a port on the wire and the body's events.
fn close_listener<W: Wire, X: Extra>(
    body: &mut RunState<X>,
    alloc: Global,
    wire: &mut W,
    id: u32,
) -> Result<(), Stop>
    ensures frame { body.new ≡ record body.old {
      events = body.new.events;
      transports = body.new.transports;
    } }
    ensures comes { Changes W.outside (plain_close_server id)
        body.old.transports body.new.transports
        (reach body.old.parts wire.old body.old.events)
        (reach body.new.parts wire.new body.new.events) result }
{
    let mut port = Port::new(wire, &mut body.events);
    body.transports.close_server(alloc, id, &mut port)
}

/// `wait_closed(stream)`.
pub fn wait_closed<X: Extra>(
    body: &mut RunState<X>,
    alloc: Global,
    task: u32,
    stream: &Value,
) -> Result<RequestReply, Memory>
    requires { Possible X.added (IsAskingFor task (request.WaitClosed stream.now)) body.old }
    ensures { Serves X.added task (request.WaitClosed stream.now) body.old body.new result }
{
    let Some(whom) = as_writer::<X>(&body.transports, stream) else {
        return bad_argument(alloc);
    };
    match body.transports.closed(whom) {
        Some(on) => awaits(body, task, on),
        None => Ok(RequestReply::Answers(Value::nothing())),
    }
}

// What is done is awaited at once.
fn awaits<X: Extra>(body: &mut RunState<X>, task: u32, on: FutureId) -> Result<RequestReply, Memory>
    requires { Possible X.added (KeepsFuture task on) body.old }
    ensures { AwaitsKept X.added task on body.old body.new result }
{
    if let Some(outcome) = body.parts.outcome(on) {
        return replied(outcome);
    }
    let _suspension = body.parts.suspend(task, on);
    Ok(RequestReply::Suspends)
}

/// `drain(stream)`.
pub fn drain<X: Extra>(
    body: &mut RunState<X>,
    alloc: Global,
    task: u32,
    stream: &Value,
) -> Result<RequestReply, Memory>
    requires { Possible X.added (IsAskingFor task (request.Drain stream.now)) body.old }
    ensures { Serves X.added task (request.Drain stream.now) body.old body.new result }
{
    match as_writer::<X>(&body.transports, stream) {
        Some(whom) => drains(body, alloc, task, whom, false),
        None => bad_argument(alloc),
    }
}

/// A drain goes on. `yielded` says that it comes after its bare `yield`.
pub fn drains<X: Extra>(
    body: &mut RunState<X>,
    alloc: Global,
    task: u32,
    whom: Handed,
    yielded: bool,
) -> Result<RequestReply, Memory>
    requires { Possible X.added (RunsOn task) body.old }
    ensures { RepliesOn X.added task (drains yielded task whom) body.old body.new result }
{
    match body.transports.drain(alloc, whom, yielded, &mut body.parts) {
        Ok(Drain::Goes) => Ok(RequestReply::Answers(Value::nothing())),
        Ok(Drain::Yields) => {
            body.parts.pause(task);
            body.stand(task, Near::Yielding(whom));
            Ok(RequestReply::Suspends)
        }
        Ok(Drain::Waits(on)) => {
            let _suspension = body.parts.suspend(task, on);
            Ok(RequestReply::Suspends)
        }
        Ok(Drain::Raises(fault)) => Ok(RequestReply::Raises(fault)),
        Err(Memory) => Err(Memory),
    }
}

/// `limits(stream, high, low)`.
pub fn limits<X: Extra>(
    body: &mut RunState<X>,
    alloc: Global,
    task: u32,
    stream: &Value,
    high: &Value,
    low: &Value,
) -> Result<RequestReply, Memory>
    requires { Possible X.added
        (IsAskingFor task (request.Limits stream.now high.now low.now)) body.old }
    ensures { Serves X.added task (request.Limits stream.now high.now low.now)
        body.old body.new result }
{
    let Some(whom) = as_writer::<X>(&body.transports, stream) else {
        return bad_argument(alloc);
    };
    let Some(high) = as_delay(high) else {
        return bad_argument(alloc);
    };
    let Some(low) = as_delay(low) else {
        return bad_argument(alloc);
    };
    limited(
        alloc,
        body.transports.limits(whom, high.number(), low.number()),
    )
}
