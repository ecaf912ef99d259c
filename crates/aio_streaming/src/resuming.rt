//! What the request at which a task stood makes of the input that its step begins with.
ghost use Rattle.std.specs.Prelude.{◌≡◌, None};
ghost use Rattle.model_stream.specs.Requests.{drop_connect as plain_drop_connect};
ghost use Rattle.model_machine.specs.State.{Connecting, Yielding, Reading, ReadingAll};
ghost use Rattle.aio_wire.specs.Port.{ported};
ghost use Rattle.aio_exchange.specs.Follows.{reach};
ghost use Rattle.aio_transports.specs.Owned.{OwnsTransports};
ghost use Rattle.aio_transports.specs.Standing.{Comes as Changes};
ghost use Rattle.aio_body.specs.Asked.{IsDeciding};
ghost use Rattle.aio_body.specs.Asking.{Comes};
ghost use Rattle.aio_body.specs.Stands.{Possible};
ghost use Rattle.aio_transports.specs.Readers.{reader_as};
ghost use Rattle.aio_streaming.specs.Done.{raised_as};
ghost use Rattle.aio_streaming.specs.Resuming.{Resumes, resuming};

use crate::answers::fault_of;
use crate::reading::{forget_blob, forget_op, reads, reads_all};
use crate::writing::drains;
use aio_base::{Blob, Exc, Input, Memory};
use aio_body::{RequestReply, RunState};
use aio_extra::Extra;
use aio_task::FutureId;
use aio_transports::StreamReader;
use aio_wire::{Port, Stop, Wire};
use model_stream::ReadOp;
use model_wire::Handed;
use std::alloc::Global;

/// A connect: the connection stands, or an exception came and the connection is dropped.
pub fn connected<W: Wire, X: Extra>(
    body: &mut RunState<X>,
    alloc: Global,
    wire: &mut W,
    task: u32,
    conn: u32,
    input: Input,
) -> Result<RequestReply, Stop>
    requires { Possible X.added (IsDeciding task (Connecting conn)) body.old }
    ensures comes { Comes W.outside
        (resuming X.added task (Connecting conn) input body.old body.new)
        (ported wire.old body.old.events) (ported wire.new body.new.events) result }
{
    match input {
        Input::Send(value) => Ok(RequestReply::Answers(value)),
        Input::Throw(fault) => thrown(drop_made(body, alloc, wire, conn), fault),
    }
}

// The connection of a connect is dropped, through a port on the wire and the body's events.
fn drop_made<W: Wire, X: Extra>(
    body: &mut RunState<X>,
    alloc: Global,
    wire: &mut W,
    conn: u32,
) -> Result<(), Stop>
    requires idle { body.old.parts.called ≡ None }
    requires own { OwnsTransports body.old.parts body.old.transports }
    ensures frame { body.new ≡ record body.old {
      parts = body.new.parts;
      events = body.new.events;
      transports = body.new.transports;
    } }
    ensures comes { Changes W.outside (plain_drop_connect conn)
        body.old.transports body.new.transports
        (reach body.old.parts wire.old body.old.events)
        (reach body.new.parts wire.new body.new.events) result }
{
    let mut port = Port::new(wire, &mut body.events);
    body.transports
        .drop_connect(alloc, conn, &mut port, &mut body.parts)
}

// The exception that came is raised, once that is done.
fn thrown(said: Result<(), Stop>, fault: Exc) -> Result<RequestReply, Stop>
    ensures { result ≡ raised_as fault said }
{
    match said {
        Ok(()) => Ok(RequestReply::Raises(fault)),
        Err(stop) => {
            forget_exc(fault);
            Err(stop)
        }
    }
}

fn forget_exc(_fault: Exc) {}

/// The bare `yield` of a drain.
pub fn yielded<X: Extra>(
    body: &mut RunState<X>,
    alloc: Global,
    task: u32,
    whom: Handed,
    input: Input,
) -> Result<RequestReply, Memory>
    requires { Possible X.added (IsDeciding task (Yielding whom)) body.old }
    ensures { Resumes X.added task (Yielding whom) input body.old body.new result }
{
    match fault_of(input) {
        Some(fault) => Ok(RequestReply::Raises(fault)),
        None => drains(body, alloc, task, whom, true),
    }
}

/// A read that waited on this future waits no more, and goes on.
pub fn read_on<X: Extra>(
    body: &mut RunState<X>,
    alloc: Global,
    task: u32,
    from: StreamReader,
    op: ReadOp<Blob>,
    on: FutureId,
    input: Input,
) -> Result<RequestReply, Memory>
    requires { Possible X.added (IsDeciding task (Reading (reader_as from) op on)) body.old }
    ensures { Resumes X.added task (Reading (reader_as from) op on) input
        body.old body.new result }
{
    body.transports.give_up(from, on);
    match fault_of(input) {
        Some(fault) => {
            forget_op(op);
            Ok(RequestReply::Raises(fault))
        }
        None => reads(body, alloc, task, from, op),
    }
}

/// A read with a negative count that waited on this future waits no more, and goes on.
pub fn read_all_on<X: Extra>(
    body: &mut RunState<X>,
    alloc: Global,
    task: u32,
    from: StreamReader,
    taken: Blob,
    on: FutureId,
    input: Input,
) -> Result<RequestReply, Memory>
    requires { Possible X.added (IsDeciding task (ReadingAll (reader_as from) taken on)) body.old }
    ensures { Resumes X.added task (ReadingAll (reader_as from) taken on) input
        body.old body.new result }
{
    body.transports.give_up(from, on);
    match fault_of(input) {
        Some(fault) => {
            forget_blob(taken);
            Ok(RequestReply::Raises(fault))
        }
        None => reads_all(body, alloc, task, from, taken),
    }
}
