//! Requests on children.
ghost use Rattle.std.specs.Prelude.{◌≡◌, ◌<◌, ◌^◌, None, length};
ghost use Rattle.model_value.specs.declared.request.Request.TheVariants as request;
ghost use Rattle.model_stream.specs.Requests.{kill as plain_kill};
ghost use Rattle.model_stream.specs.Streams.{launch as plain_launch};
ghost use Rattle.model_machine.specs.Replies.{code_of as plain_code_of};
ghost use Rattle.aio_wire.specs.Port.{ported};
ghost use Rattle.aio_exchange.specs.Follows.{reach};
ghost use Rattle.aio_transports.specs.Owned.{OwnsTransports};
ghost use Rattle.aio_transports.specs.Standing.{Answers as AnswersTree, Comes as Changes};
ghost use Rattle.aio_body.specs.Asked.{IsAskingFor, Serves};
ghost use Rattle.aio_body.specs.Asking.{Comes, serving};
ghost use Rattle.aio_body.specs.Stands.{Possible};
ghost use Rattle.aio_streaming.specs.Answered.{AnsweredAs, launched_as};

use crate::answers::done;
use aio_base::{Kind, Memory, Value};
use aio_body::{RequestReply, RunState, bad_argument, or_stop, out_of_range, raises};
use aio_extra::Extra;
use aio_opened::{as_child, as_words};
use aio_wire::{Port, Stop, Wire, WordList};
use model_stream::ChildWait;
use std::alloc::Global;

/// `launch(words)`.
pub fn launch<W: Wire, X: Extra>(
    body: &mut RunState<X>,
    alloc: Global,
    wire: &mut W,
    task: u32,
    words: &Value,
) -> Result<RequestReply, Stop>
    requires { Possible X.added (IsAskingFor task (request.Launch words.now)) body.old }
    ensures comes { Comes W.outside
        (serving X.added task (request.Launch words.now) body.old body.new)
        (ported wire.old body.old.events) (ported wire.new body.new.events) result }
{
    let Some(words) = as_words(alloc, words)? else {
        return or_stop(bad_argument(alloc));
    };
    if !body.transports.may_launch() {
        return or_stop(out_of_range(alloc));
    }
    launched(alloc, launch_child(body, alloc, wire, words))
}

// It is launched, through a port on the wire and the body's events.
fn launch_child<W: Wire, X: Extra>(
    body: &mut RunState<X>,
    alloc: Global,
    wire: &mut W,
    words: WordList,
) -> Result<Option<u32>, Stop>
    requires idle { body.old.parts.called ≡ None }
    requires own { OwnsTransports body.old.parts body.old.transports }
    requires room { length body.old.transports.children.children < 2 ^ 32 }
    ensures frame { body.new ≡ record body.old {
      parts = body.new.parts;
      events = body.new.events;
      transports = body.new.transports;
    } }
    ensures comes { AnswersTree W.outside (plain_launch words (length body.old.parts.futures))
        body.old.transports body.new.transports
        (reach body.old.parts wire.old body.old.events)
        (reach body.new.parts wire.new body.new.events) result }
{
    let mut port = Port::new(wire, &mut body.events);
    body.transports
        .launch(alloc, words, &mut port, &mut body.parts)
}

// The child that was launched, or a refusal.
fn launched(alloc: Global, said: Result<Option<u32>, Stop>) -> Result<RequestReply, Stop>
    ensures { AnsweredAs launched_as said result }
{
    match said {
        Ok(Some(id)) => Ok(RequestReply::Answers(Value::child(id))),
        Ok(None) => or_stop(raises(alloc, Kind::OSError, "launch refused")),
        Err(stop) => Err(stop),
    }
}

/// `stderr(child)`.
pub fn standard_error<X: Extra>(
    body: &RunState<X>,
    alloc: Global,
    task: u32,
    child: &Value,
) -> Result<RequestReply, Memory>
    requires { Possible X.added (IsAskingFor task (request.StandardError child.now)) body.now }
    ensures { Serves X.added task (request.StandardError child.now) body.now body.now result }
{
    match as_child::<X>(&body.transports, child) {
        Some(id) => Ok(RequestReply::Answers(Value::errs(id))),
        None => bad_argument(alloc),
    }
}

/// `wait(child)`.
pub fn wait_child<X: Extra>(
    body: &mut RunState<X>,
    alloc: Global,
    task: u32,
    child: &Value,
) -> Result<RequestReply, Memory>
    requires { Possible X.added (IsAskingFor task (request.WaitChild child.now)) body.old }
    ensures { Serves X.added task (request.WaitChild child.now) body.old body.new result }
{
    let Some(id) = as_child::<X>(&body.transports, child) else {
        return bad_argument(alloc);
    };
    match body.transports.wait(alloc, id, &mut body.parts) {
        Ok(ChildWait::Code(code)) => Ok(RequestReply::Answers(Value::int(code))),
        Ok(ChildWait::Waits(on)) => {
            let _suspension = body.parts.suspend(task, on);
            Ok(RequestReply::Suspends)
        }
        Err(Memory) => Err(Memory),
    }
}

/// `returncode(child)`.
pub fn returncode<X: Extra>(
    body: &RunState<X>,
    alloc: Global,
    task: u32,
    child: &Value,
) -> Result<RequestReply, Memory>
    requires { Possible X.added (IsAskingFor task (request.ReturnCode child.now)) body.now }
    ensures { Serves X.added task (request.ReturnCode child.now) body.now body.now result }
{
    match as_child::<X>(&body.transports, child) {
        Some(id) => Ok(RequestReply::Answers(code_of(body.transports.code(id)))),
        None => bad_argument(alloc),
    }
}

fn code_of(code: Option<i64>) -> Value
    ensures { result ≡ plain_code_of code }
{
    match code {
        Some(code) => Value::int(code),
        None => Value::nothing(),
    }
}

/// `kill(child)`.
pub fn kill<W: Wire, X: Extra>(
    body: &mut RunState<X>,
    alloc: Global,
    wire: &mut W,
    task: u32,
    child: &Value,
) -> Result<RequestReply, Stop>
    requires { Possible X.added (IsAskingFor task (request.Kill child.now)) body.old }
    ensures comes { Comes W.outside
        (serving X.added task (request.Kill child.now) body.old body.new)
        (ported wire.old body.old.events) (ported wire.new body.new.events) result }
{
    let Some(id) = as_child::<X>(&body.transports, child) else {
        return or_stop(bad_argument(alloc));
    };
    done(kill_child(body, alloc, wire, id))
}

// It is killed, through a port on the wire and the body's events.
fn kill_child<W: Wire, X: Extra>(
    body: &mut RunState<X>,
    alloc: Global,
    wire: &mut W,
    child: u32,
) -> Result<(), Stop>
    ensures frame { body.new ≡ record body.old { events = body.new.events } }
    ensures comes { Changes W.outside (plain_kill child)
        body.old.transports body.new.transports
        (reach body.old.parts wire.old body.old.events)
        (reach body.new.parts wire.new body.new.events) result }
{
    let mut port = Port::new(wire, &mut body.events);
    body.transports.kill(alloc, child, &mut port)
}
