//! Requests that open listeners and connections.
ghost use Rattle.std.specs.Prelude.{◌≡◌, ◌<◌, ◌^◌, IfOk, None, OnOk, Some, length, slice_get, true};
ghost use Rattle.model_value.specs.declared.request.Request.TheVariants as request;
ghost use Rattle.model_loop.specs.Futures.{is_pending_at};
ghost use Rattle.model_stream.specs.Streams.{connect as plain_connect, listen as plain_listen};
ghost use Rattle.model_machine.specs.Replies.{bad_port as plain_bad_port};
ghost use Rattle.aio_wire.specs.Port.{ported};
ghost use Rattle.aio_exchange.specs.Follows.{reach};
ghost use Rattle.aio_transports.specs.Owned.{OwnsTransports};
ghost use Rattle.aio_transports.specs.Standing.{Answers as AnswersTree};
ghost use Rattle.aio_body.specs.Asked.{IsAskingFor};
ghost use Rattle.aio_body.specs.Asking.{Comes, serving};
ghost use Rattle.aio_body.specs.Slots.{resume_point_at};
ghost use Rattle.aio_body.specs.Stands.{Possible};
ghost use Rattle.refine_streams.specs.Went.{CallsSuspend};
ghost use Rattle.aio_streaming.specs.Answered.{AnsweredAs, listened_as};
ghost use Rattle.aio_streaming.specs.Ports.{port_in};

use aio_base::{Kind, Memory, Value};
use aio_body::{
    RequestReply, ResumePoint, RunState, as_int, bad_argument, or_stop, out_of_range, raises,
};
use aio_extra::Extra;
use aio_transports::Connecting;
use aio_wire::{Port, Stop, Wire};
use std::alloc::Global;

/// `listen(port, coroutine)`.
pub fn listen<W: Wire, X: Extra>(
    body: &mut RunState<X>,
    alloc: Global,
    wire: &mut W,
    task: u32,
    port: &Value,
    handler: u32,
) -> Result<RequestReply, Stop>
    requires { Possible X.added (IsAskingFor task (request.Listen port.now handler)) body.old }
    ensures comes { Comes W.outside
        (serving X.added task (request.Listen port.now handler) body.old body.new)
        (ported wire.old body.old.events) (ported wire.new body.new.events) result }
{
    let Some(number) = as_int(port) else {
        return or_stop(bad_argument(alloc));
    };
    if !body.transports.may_listen() {
        return or_stop(out_of_range(alloc));
    }
    let Some(number) = as_port(number) else {
        return or_stop(bad_port(alloc));
    };
    listened(alloc, listen_at(body, alloc, wire, number, handler))
}

// It is listened, through a port on the wire and the body's events.
fn listen_at<W: Wire, X: Extra>(
    body: &mut RunState<X>,
    alloc: Global,
    wire: &mut W,
    number: u16,
    handler: u32,
) -> Result<Option<u32>, Stop>
    requires room { length body.old.transports.streams.servers < 2 ^ 32 }
    ensures frame { body.new ≡ record body.old {
      events = body.new.events;
      transports = body.new.transports;
    } }
    ensures comes { AnswersTree W.outside (plain_listen number handler)
        body.old.transports body.new.transports
        (reach body.old.parts wire.old body.old.events)
        (reach body.new.parts wire.new body.new.events) result }
{
    let mut port = Port::new(wire, &mut body.events);
    body.transports.listen(alloc, number, handler, &mut port)
}

// The listener that was made, or a refusal.
fn listened(alloc: Global, said: Result<Option<u32>, Stop>) -> Result<RequestReply, Stop>
    ensures { AnsweredAs listened_as said result }
{
    match said {
        Ok(Some(id)) => Ok(RequestReply::Answers(Value::server(id))),
        Ok(None) => or_stop(raises(alloc, Kind::OSError, "listen refused")),
        Err(stop) => Err(stop),
    }
}

/// `connect(port)`.
pub fn connect<W: Wire, X: Extra>(
    body: &mut RunState<X>,
    alloc: Global,
    wire: &mut W,
    task: u32,
    port: &Value,
) -> Result<RequestReply, Stop>
    requires { Possible X.added (IsAskingFor task (request.Connect port.now)) body.old }
    ensures comes { Comes W.outside
        (serving X.added task (request.Connect port.now) body.old body.new)
        (ported wire.old body.old.events) (ported wire.new body.new.events) result }
{
    let Some(number) = as_int(port) else {
        return or_stop(bad_argument(alloc));
    };
    if !body.transports.may_connect() {
        return or_stop(out_of_range(alloc));
    }
    let Some(number) = as_port(number) else {
        return or_stop(bad_port(alloc));
    };
    match begun(body, alloc, wire, number) {
        Ok(Some(connecting)) => or_stop(waits(body, task, connecting)),
        Ok(None) => or_stop(raises(alloc, Kind::ConnectionRefusedError, "connect refused")),
        Err(stop) => Err(stop),
    }
}

// A connection is begun.
fn begun<W: Wire, X: Extra>(
    body: &mut RunState<X>,
    alloc: Global,
    wire: &mut W,
    number: u16,
) -> Result<Option<Connecting>, Stop>
    requires idle { body.old.parts.called ≡ None }
    requires own { OwnsTransports body.old.parts body.old.transports }
    requires room { length body.old.transports.streams.connections < 2 ^ 32 }
    ensures frame { body.new ≡ record body.old {
      parts = body.new.parts;
      events = body.new.events;
      transports = body.new.transports;
    } }
    ensures comes { AnswersTree W.outside (plain_connect number (length body.old.parts.futures))
        body.old.transports body.new.transports
        (reach body.old.parts wire.old body.old.events)
        (reach body.new.parts wire.new body.new.events) result }
{
    let mut port = Port::new(wire, &mut body.events);
    body.transports
        .connect(alloc, number, &mut port, &mut body.parts)
}

// The task waits till the connection stands.
fn waits<X: Extra>(
    body: &mut RunState<X>,
    task: u32,
    connecting: Connecting,
) -> Result<RequestReply, Memory>
    requires idle { body.old.parts.called ≡ None }
    requires running { body.old.parts.running ≡ Some task }
    requires pending { is_pending_at (slice_get body.old.parts.futures connecting.1) ≡ true }
    requires there { task < length body.old.slots.items }
    ensures is { IfOk result (λ said. said ≡ RequestReply.Suspends) }
    ensures suspends { CallsSuspend task connecting.1 body.old.parts body.new.parts }
    ensures frame { body.new ≡ record body.old {
      parts = body.new.parts;
      slots = body.new.slots;
    } }
    ensures slots { OnOk result (body.new.slots.items
        ≡ resume_point_at task (ResumePoint.Connecting connecting.0 connecting.1)
        body.old.slots.items) }
{
    let conn = connecting.conn();
    let future = connecting.on();
    let _suspension = body.parts.suspend(task, future);
    body.stand_far(task, ResumePoint::Connecting { conn, future })?;
    Ok(RequestReply::Suspends)
}

// A port is a number from 1 to 65,535.
fn as_port(number: i64) -> Option<u16>
    ensures { result ≡ port_in number }
{
    if number > 0 && number < 65_536 {
        Some(number as u16)
    } else {
        None
    }
}

fn bad_port(alloc: Global) -> Result<RequestReply, Memory>
    ensures { IfOk result (λ said. said ≡ RequestReply.Raises plain_bad_port) }
{
    raises(alloc, Kind::ValueError, "port")
}
