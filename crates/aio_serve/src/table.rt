//! The table of requests.
ghost use Rattle.std.specs.Prelude.{◌≡◌, true, false};
ghost use Rattle.aio_wire.specs.Port.{ported};
ghost use Rattle.aio_body.specs.Asked.{Serves, IsAskingFor};
ghost use Rattle.aio_body.specs.Asking.{Comes, serving};
ghost use Rattle.aio_body.specs.Stands.{Possible};
ghost use Rattle.aio_serve.specs.Own.{is_lent, is_own};

use crate::{added, futures, groups, tasks, time, timeouts, waiting};
use aio_base::{Memory, Request, Value};
use aio_body::{RequestReply, RunState, or_stop};
use aio_extra::Extra;
use aio_streaming as streaming;
use aio_wire::{Stop, Wire};
use std::alloc::Global;

/// Serves a request of the task whose step goes on. It may ask the outside.
pub fn reply<W: Wire, X: Extra>(
    body: &mut RunState<X>,
    alloc: Global,
    wire: &mut W,
    task: u32,
    request: Request,
) -> Result<RequestReply, Stop>
    requires { Possible X.added (IsAskingFor task request) body.old }
    ensures { Comes W.outside (serving X.added task request body.old body.new)
        (ported wire.old body.old.events) (ported wire.new body.new.events) result }
{
    if is_own(&request) {
        return or_stop(serve(body, alloc, task, request));
    }
    let said = serve_beside(body, alloc, wire, task, &request);
    forget_request(request);
    said
}

// A request that was served is let go.
fn forget_request(_request: Request) {}

// Whether a request is the loop's own.
fn is_own(request: &Request) -> bool
    ensures { result ≡ is_own request.now }
{
    match request {
        Request::Extra { .. }
        | Request::Listen { .. }
        | Request::Connect(_)
        | Request::Launch(_)
        | Request::Write { .. }
        | Request::WriteEof(_)
        | Request::Close(_)
        | Request::Kill(_)
        | Request::WaitClosed(_)
        | Request::Drain(_)
        | Request::Limits { .. }
        | Request::Read { .. }
        | Request::ReadExactly { .. }
        | Request::ReadUntil { .. }
        | Request::ReadLine(_)
        | Request::StandardError(_)
        | Request::WaitChild(_)
        | Request::ReturnCode(_) => false,
        _ => true,
    }
}

// A request on listeners, connections and children, or one that is added.
fn serve_beside<W: Wire, X: Extra>(
    body: &mut RunState<X>,
    alloc: Global,
    wire: &mut W,
    task: u32,
    request: &Request,
) -> Result<RequestReply, Stop>
    requires asked { Possible X.added (IsAskingFor task request.now) body.old }
    requires frame { is_own request.now ≡ false }
    ensures { Comes W.outside (serving X.added task request.now body.old body.new)
        (ported wire.old body.old.events) (ported wire.new body.new.events) result }
{
    match request {
        Request::Extra { code, arguments } => {
            added::extra(body, alloc, wire, task, code, arguments)
        }
        Request::Listen { port, coroutine } => {
            streaming::listen(body, alloc, wire, task, port, *coroutine)
        }
        Request::Connect(port) => streaming::connect(body, alloc, wire, task, port),
        Request::Launch(words) => streaming::launch(body, alloc, wire, task, words),
        Request::Write { stream, bytes } => {
            streaming::write(body, alloc, wire, task, stream, bytes)
        }
        Request::WriteEof(stream) => streaming::write_eof(body, alloc, wire, task, stream),
        Request::Close(x) => streaming::close(body, alloc, wire, task, x),
        Request::Kill(child) => streaming::kill(body, alloc, wire, task, child),
        Request::WaitClosed(stream) => or_stop(streaming::wait_closed(body, alloc, task, stream)),
        Request::Drain(stream) => or_stop(streaming::drain(body, alloc, task, stream)),
        Request::Limits { stream, high, low } => {
            or_stop(streaming::limits(body, alloc, task, stream, high, low))
        }
        Request::Read { stream, count } => {
            or_stop(streaming::read(body, alloc, task, stream, count))
        }
        Request::ReadExactly { stream, count } => {
            or_stop(streaming::read_exactly(body, alloc, task, stream, count))
        }
        Request::ReadUntil { stream, separator } => {
            or_stop(streaming::read_until(body, alloc, task, stream, separator))
        }
        Request::ReadLine(stream) => or_stop(streaming::read_line(body, alloc, task, stream)),
        Request::StandardError(child) => {
            or_stop(streaming::standard_error(body, alloc, task, child))
        }
        Request::WaitChild(child) => or_stop(streaming::wait_child(body, alloc, task, child)),
        Request::ReturnCode(child) => or_stop(streaming::returncode(body, alloc, task, child)),
        _ => unreachable!(),
    }
}

// A request of the loop's own, none of which asks the outside.
fn serve<X: Extra>(
    body: &mut RunState<X>,
    alloc: Global,
    task: u32,
    request: Request,
) -> Result<RequestReply, Memory>
    requires asked { Possible X.added (IsAskingFor task request) body.old }
    requires own { is_own request ≡ true }
    ensures { Serves X.added task request body.old body.new result }
{
    match request {
        Request::Set { future, value } => futures::set(body, alloc, &future, value),
        Request::TimeoutExit { timeout, fault } => timeouts::exit_timeout(
            body, alloc, task, &timeout, fault,
        ),
        Request::GroupExit { group, fault } => groups::exit_group(body, alloc, task, &group, fault),
        others => {
            let said = serve_lent(body, alloc, task, &others);
            forget_request(others);
            said
        }
    }
}

// One that keeps nothing of its arguments.
fn serve_lent<X: Extra>(
    body: &mut RunState<X>,
    alloc: Global,
    task: u32,
    request: &Request,
) -> Result<RequestReply, Memory>
    requires asked { Possible X.added (IsAskingFor task request.now) body.old }
    requires lent { is_lent request.now ≡ true }
    ensures { Serves X.added task request.now body.old body.new result }
{
    match request {
        Request::Pause => Ok(waiting::pause(body, task)),
        Request::Await(x) => waiting::await_value(body, alloc, task, x),
        Request::Print(values) => time::print(body, alloc, task, values),
        Request::MakeFuture => futures::make_future(body, alloc),
        Request::Fail { future, fault } => futures::fail(body, alloc, future, fault),
        Request::IsDone(x) => futures::is_done(body, alloc, x),
        Request::IsCancelled(x) => futures::is_cancelled(body, alloc, x),
        Request::ResultOf(x) => futures::result_of(body, alloc, x),
        Request::Cancel(x) => tasks::cancel(body, alloc, x),
        Request::Cancelling(x) => tasks::cancelling(body, alloc, x),
        Request::Uncancel(x) => tasks::uncancel(body, alloc, x),
        Request::Current => Ok(RequestReply::Answers(Value::task(task))),
        Request::Time => Ok(time::time_now(body)),
        Request::Spawn {
            coroutine,
            arguments,
        } => tasks::spawn(body, alloc, *coroutine, arguments),
        Request::Sleep(delay) => waiting::sleep(body, alloc, task, delay),
        Request::TimeoutEnter(delay) => timeouts::enter_timeout(body, alloc, task, delay),
        Request::Reschedule { timeout, when } => timeouts::reschedule(body, alloc, timeout, when),
        Request::Expired(timeout) => timeouts::expired(body, alloc, timeout),
        Request::GroupEnter => groups::enter_group(body, alloc, task),
        Request::Create {
            group,
            coroutine,
            arguments,
        } => groups::create(body, alloc, group, *coroutine, arguments),
        _ => unreachable!(),
    }
}
