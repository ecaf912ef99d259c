//! A step of a task.
ghost use Rattle.std.specs.Prelude.{◌≡◌, true};
ghost use Rattle.model_machine.specs.State.{State};
ghost use Rattle.aio_wire.specs.Port.{ported};
ghost use Rattle.aio_body.specs.Asking.{Comes};
ghost use Rattle.aio_body.specs.Stands.{Context, Possible};
ghost use Rattle.aio_step.specs.Serving.{served_of, serving_once};
ghost use Rattle.aio_step.specs.Stepping.{HasBegun, HearsMade, IsCalled, IsDecidingAs, IsServing};
ghost use Rattle.aio_step.specs.Stepping.{deciding, serving_on, stepping};

use aio_base::{Input, Memory};
use aio_body::{RequestReply, ResumePoint, RunState, Slot, reply_of};
use aio_extra::Extra;
use aio_gen::{Gen, GenOut};
use aio_serve::{connected, leave_group, or_stop, read_all_on, read_on, reply, wake, yielded};
use aio_task::Ticket;
use aio_wire::{Stop, Wire};
use std::alloc::Global;

/// How a step ends: the task waits or is done, or it ran away.
#[derive(Clone, Copy)]
pub enum Stepped {
    Goes,
    Runaway(u32),
}

/// What one answer of a coroutine leads to: it is answered in turn, the task waits, or the step
/// ended.
#[derive(Drop)]
pub enum Served {
    Answered(Input),
    Suspends,
    Ended(Stepped),
}

/// A step that has begun: the task's coroutine, at what it stood, and what its input came to.
#[derive(Drop)]
pub struct Started {
    pub coroutine: Gen,
    pub resume_point: ResumePoint,
    pub input: Input,
}

/// A step of a task, by the handle whose memory the ticket is. It may ask the outside.
pub fn step<W: Wire, X: Extra>(
    body: &mut RunState<X>,
    alloc: Global,
    wire: &mut W,
    task: u32,
    ticket: Ticket,
    input: Input,
) -> Result<Stepped, Stop>
    requires called { Possible X.added (IsCalled task) body.old }
    requires made { HearsMade input body.old }
    ensures { Comes W.outside (stepping X.added task input body.old body.new)
        (ported wire.old body.old.events) (ported wire.new body.new.events) result }
{
    let Started {
        coroutine,
        resume_point,
        input,
    } = begin(body, task, ticket, input);
    match decide(body, alloc, wire, task, resume_point, input) {
        Ok(RequestReply::Answers(value)) => {
            serve(body, alloc, wire, task, coroutine, Input::Send(value))
        }
        Ok(RequestReply::Raises(fault)) => {
            serve(body, alloc, wire, task, coroutine, Input::Throw(fault))
        }
        Ok(RequestReply::Suspends) => {
            body.put_back(task, coroutine);
            Ok(Stepped::Goes)
        }
        Err(stop) => {
            forget_coroutine(coroutine);
            Err(stop)
        }
    }
}

// A coroutine whose step has ended is let go.
fn forget_coroutine(_coroutine: Gen) {}

// The step begins, and what the task runs is taken out.
fn begin<X: Extra>(body: &mut RunState<X>, task: u32, ticket: Ticket, input: Input) -> Started
    requires { Possible X.added (IsCalled task) body.old }
    ensures { (c : Context X.added) (s : State X.added.Kept) → IsCalled task c body.old s
        → HasBegun task input c s result body.new }
{
    let input = body.parts.begin_step(task, ticket, input);
    let Slot {
        coroutine,
        resume_point,
    } = body.take(task);
    body.give_up(&resume_point);
    let Some(coroutine) = coroutine else {
        unreachable!()
    };
    Started {
        coroutine,
        resume_point,
        input,
    }
}

// What the request at which a task stood makes of the input that its step begins with.
fn decide<W: Wire, X: Extra>(
    body: &mut RunState<X>,
    alloc: Global,
    wire: &mut W,
    task: u32,
    resume_point: ResumePoint,
    input: Input,
) -> Result<RequestReply, Stop>
    requires deciding { Possible X.added (IsDecidingAs task resume_point) body.old }
    requires made { HearsMade input body.old }
    ensures { Comes W.outside (deciding X.added task resume_point input body.old body.new)
        (ported wire.old body.old.events) (ported wire.new body.new.events) result }
{
    match resume_point {
        ResumePoint::Asked => Ok(reply_of(input)),
        ResumePoint::Sleeping {
            timer: _,
            future: _,
        } => Ok(reply_of(input)),
        ResumePoint::Leaving(group) => or_stop(leave_group(body, alloc, task, group, input)),
        ResumePoint::Serving(key) => wake(body, alloc, wire, task, key, input),
        ResumePoint::Connecting { conn, future: _ } => {
            connected(body, alloc, wire, task, conn, input)
        }
        ResumePoint::Yielding(whom) => or_stop(yielded(body, alloc, task, whom, input)),
        ResumePoint::Reading { from, op, on } => {
            or_stop(read_on(body, alloc, task, from, op, on, input))
        }
        ResumePoint::ReadingAll { from, taken, on } => {
            or_stop(read_all_on(body, alloc, task, from, taken, on, input))
        }
    }
}

// The coroutine is resumed, and what it says is served, until the step ends.
fn serve<W: Wire, X: Extra>(
    body: &mut RunState<X>,
    alloc: Global,
    wire: &mut W,
    task: u32,
    coroutine: Gen,
    input: Input,
) -> Result<Stepped, Stop>
    requires { Possible X.added (IsServing task true input coroutine) body.old }
    ensures { Comes W.outside (serving_on X.added task input coroutine body.old body.new)
        (ported wire.old body.old.events) (ported wire.new body.new.events) result }
{
    let mut coroutine = coroutine;
    let mut input = input;
    let mut fresh = true;
    for _answered in 0..u64::MAX {
        match serve_one(body, alloc, wire, task, &mut coroutine, input, fresh) {
            Ok(Served::Answered(next)) => input = next,
            Ok(Served::Suspends) => {
                body.put_back(task, coroutine);
                return Ok(Stepped::Goes);
            }
            Ok(Served::Ended(ended)) => {
                forget_coroutine(coroutine);
                return Ok(ended);
            }
            Err(stop) => {
                forget_coroutine(coroutine);
                return Err(stop);
            }
        }
        fresh = false;
    }
    forget_coroutine(coroutine);
    forget_input(input);
    Err(Stop::Memory)
}

// What a coroutine doesn't hear any more is let go.
fn forget_input(_input: Input) {}

// The coroutine is resumed once, and what it says is served.
fn serve_one<W: Wire, X: Extra>(
    body: &mut RunState<X>,
    alloc: Global,
    wire: &mut W,
    task: u32,
    coroutine: &mut Gen,
    input: Input,
    fresh: bool,
) -> Result<Served, Stop>
    requires { Possible X.added (IsServing task fresh input coroutine.old) body.old }
    ensures { Comes W.outside
        (serving_once X.added task fresh input coroutine.old coroutine.new body.old body.new)
        (ported wire.old body.old.events) (ported wire.new body.new.events) result }
{
    match coroutine.resume(alloc, &body.code, input, fresh) {
        Ok(GenOut::Asks(request)) => match reply(body, alloc, wire, task, request) {
            Ok(said) => Ok(onward(said)),
            Err(stop) => Err(stop),
        },
        Ok(GenOut::Returns(value)) => {
            body.parts.finish(task, Ok(value));
            Ok(Served::Ended(Stepped::Goes))
        }
        Ok(GenOut::Raises(fault)) => {
            body.parts.finish(task, Err(fault));
            Ok(Served::Ended(Stepped::Goes))
        }
        Ok(GenOut::Runaway) => Ok(Served::Ended(Stepped::Runaway(task))),
        Err(Memory) => Err(Stop::Memory),
    }
}

// What an answer is to the step.
fn onward(said: RequestReply) -> Served
    ensures { result ≡ served_of said }
{
    match said {
        RequestReply::Answers(value) => Served::Answered(Input::Send(value)),
        RequestReply::Raises(fault) => Served::Answered(Input::Throw(fault)),
        RequestReply::Suspends => Served::Suspends,
    }
}
