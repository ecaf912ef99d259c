//! Requests that are added to the loop's own.
ghost use Rattle.std.specs.Prelude.{◌≡◌, true, IfOk, is_some};
ghost use Rattle.model_value.specs.declared.request.Request.TheVariants as request;
ghost use Rattle.model_machine.specs.Extra.{ExtraAnswer};
ghost use Rattle.model_machine.specs.Replies.{extra_refused as plain_extra_refused, input_by as plain_input_by};
ghost use Rattle.model_machine.specs.Sound.{sends_made};
ghost use Rattle.model_machine.specs.State.{State, Serving};
ghost use Rattle.aio_wire.specs.Port.{ported};
ghost use Rattle.aio_exchange.specs.Exchanged.{AsksOne};
ghost use Rattle.aio_extra.specs.Called.{MayServe};
ghost use Rattle.aio_extra.specs.declared.asked.Asked.{Asked as AnyAsked};
ghost use Rattle.aio_extra.specs.declared.asked.Asked.TheVariants.{Outside, Wait};
ghost use Rattle.aio_body.specs.Asked.{IsDeciding, IsAskingFor};
ghost use Rattle.aio_body.specs.Asking.{Comes, serving};
ghost use Rattle.aio_body.specs.Ids.{ids_in};
ghost use Rattle.aio_body.specs.Stands.{Context, Possible};
ghost use Rattle.aio_serve.specs.Adding.{AnswersAs, HasAnswer, IsAnswering, Woke, answered};
ghost use Rattle.aio_serve.specs.Adding.{answering, answering_once, waking};

use aio_base::{Blob, Input, Kind, Memory, Value, exception};
use aio_body::{
    RequestReply, ResumePoint, RunState, as_int, bad_argument, input_of, is_list, or_stop,
};
use aio_extra::{Asked, Extra};
use aio_task::FutureId;
use aio_wire::{Answer, Call, Port, Stop, Wire};
use std::alloc::Global;

/// What comes of an answer of what is added: a reply to the task, or another answer, of a request
/// that was woken at once.
#[derive(Drop)]
pub enum Answered {
    Replies(RequestReply),
    Again(Asked),
}

/// `extra(code, list)`.
pub fn extra<W: Wire, X: Extra>(
    body: &mut RunState<X>,
    alloc: Global,
    wire: &mut W,
    task: u32,
    code: &Value,
    arguments: &Value,
) -> Result<RequestReply, Stop>
    requires { Possible X.added (IsAskingFor task (request.Extra code.now arguments.now)) body.old }
    ensures { Comes W.outside
        (serving X.added task (request.Extra code.now arguments.now) body.old body.new)
        (ported wire.old body.old.events) (ported wire.new body.new.events) result }
{
    let Some(code) = as_int(code) else {
        return or_stop(bad_argument(alloc));
    };
    if !is_list(arguments) {
        return or_stop(bad_argument(alloc));
    }
    match body.extra.ask(alloc, task, code, arguments, &body.futures, &mut body.parts) {
        Ok(asked) => answer(body, alloc, wire, task, asked),
        Err(Memory) => Err(Stop::Memory),
    }
}

/// The wait of such a request is over.
pub fn wake<W: Wire, X: Extra>(
    body: &mut RunState<X>,
    alloc: Global,
    wire: &mut W,
    task: u32,
    key: u64,
    input: Input,
) -> Result<RequestReply, Stop>
    requires deciding { Possible X.added (IsDeciding task (Serving key)) body.old }
    requires made { sends_made (ids_in body.old) input ≡ true }
    ensures { Comes W.outside (waking X.added task key input body.old body.new)
        (ported wire.old body.old.events) (ported wire.new body.new.events) result }
{
    match body.extra.wake(alloc, key, input, &mut body.parts) {
        Ok(asked) => answer(body, alloc, wire, task, asked),
        Err(Memory) => Err(Stop::Memory),
    }
}

// What is done is not waited for: the request is woken at once, for as long as it waits on.
fn answer<W: Wire, X: Extra>(
    body: &mut RunState<X>,
    alloc: Global,
    wire: &mut W,
    task: u32,
    asked: Asked,
) -> Result<RequestReply, Stop>
    requires { Possible X.added (HasAnswer task asked) body.old }
    ensures { Comes W.outside (answering X.added task asked body.old body.new)
        (ported wire.old body.old.events) (ported wire.new body.new.events) result }
{
    let mut asked = asked;
    for _woken in 0..u64::MAX {
        match answer_one(body, alloc, wire, task, asked) {
            Ok(Answered::Replies(said)) => return Ok(said),
            Ok(Answered::Again(next)) => asked = next,
            Err(stop) => return Err(stop),
        }
    }
    forget_asked(asked);
    Err(Stop::Memory)
}

// An answer that is given to nobody is let go.
fn forget_asked(_asked: Asked) {}

fn answer_one<W: Wire, X: Extra>(
    body: &mut RunState<X>,
    alloc: Global,
    wire: &mut W,
    task: u32,
    asked: Asked,
) -> Result<Answered, Stop>
    requires { Possible X.added (HasAnswer task asked) body.old }
    ensures { Comes W.outside (answering_once X.added task asked body.old body.new)
        (ported wire.old body.old.events) (ported wire.new body.new.events) result }
{
    match asked {
        Asked::Answer(value) => Ok(Answered::Replies(RequestReply::Answers(value))),
        Asked::Raise(fault) => Ok(Answered::Replies(RequestReply::Raises(fault))),
        Asked::Wait { on, key } => or_stop(wait(body, alloc, task, on, key)),
        Asked::Outside { code, bytes, key } => {
            ask_outside(body, alloc, wire, task, code, bytes, key)
        }
    }
}

// The outside is asked, and what it answers wakes the request, in the same step.
fn ask_outside<W: Wire, X: Extra>(
    body: &mut RunState<X>,
    alloc: Global,
    wire: &mut W,
    task: u32,
    code: i64,
    bytes: Blob,
    key: u64,
) -> Result<Answered, Stop>
    requires { Possible X.added (HasAnswer task (Outside code bytes key)) body.old }
    ensures { Comes W.outside
        (answering_once X.added task (Outside code bytes key) body.old body.new)
        (ported wire.old body.old.events) (ported wire.new body.new.events) result }
{
    match ask(body, alloc, wire, Call::Extra { code, bytes }) {
        Ok(answer) => or_stop(hear(body, alloc, key, answer)),
        Err(stop) => Err(stop),
    }
}

// The outside is asked once, and it is noted.
fn ask<W: Wire, X: Extra>(
    body: &mut RunState<X>,
    alloc: Global,
    wire: &mut W,
    call: Call,
) -> Result<Answer, Stop>
    ensures frame { body.new ≡ record body.old { events = body.new.events } }
    ensures asks { AsksOne W.outside call
        (ported wire.old body.old.events) (ported wire.new body.new.events) result }
{
    let mut port = Port::new(wire, &mut body.events);
    aio_exchange::ask(&mut port, alloc, call)
}

// The request is woken with what the outside answered.
fn hear<X: Extra>(
    body: &mut RunState<X>,
    alloc: Global,
    key: u64,
    answer: Answer,
) -> Result<Answered, Memory>
    requires runs { is_some body.old.parts.running ≡ true }
    requires serves { MayServe X.added body.old.parts.running body.old.extra body.old.parts }
    ensures { IfOk result (λ told. (asked : AnyAsked) × (told ≡ Answered.Again asked)
        × Woke X.added key (plain_input_by answer) body.old body.new asked) }
{
    let input = input_by(alloc, answer)?;
    let next = body.extra.wake(alloc, key, input, &mut body.parts)?;
    Ok(Answered::Again(next))
}

// Bytes, or a refusal: no other answer fits.
fn input_by(alloc: Global, answer: Answer) -> Result<Input, Memory>
    ensures { IfOk result (λ input. input ≡ plain_input_by answer) }
{
    match &answer {
        Answer::Extra(bytes) => Ok(Input::Send(Value::bytes_from(alloc, bytes.items())?)),
        Answer::Refused => extra_refused(alloc),
        Answer::Turn { now: _, items: _ } => extra_refused(alloc),
        Answer::Done => extra_refused(alloc),
        Answer::Conn => extra_refused(alloc),
        Answer::Again => extra_refused(alloc),
        Answer::Broken => extra_refused(alloc),
        Answer::Data(_) => extra_refused(alloc),
        Answer::Eof => extra_refused(alloc),
        Answer::Took(_) => extra_refused(alloc),
        Answer::Child => extra_refused(alloc),
    }
}

fn extra_refused(alloc: Global) -> Result<Input, Memory>
    ensures { IfOk result (λ input. input ≡ plain_extra_refused) }
{
    Ok(Input::Throw(exception(alloc, Kind::OSError, "extra refused")?))
}

// The task waits for the future, or the request is woken at once.
fn wait<X: Extra>(
    body: &mut RunState<X>,
    alloc: Global,
    task: u32,
    on: FutureId,
    key: u64,
) -> Result<Answered, Memory>
    requires { Possible X.added (HasAnswer task (Wait on key)) body.old }
    ensures answers { IfOk result
        (λ told. (c : Context X.added) (s : State X.added.Kept) (it : ExtraAnswer)
        → IsAnswering task (Wait on key) it c body.old s
        → AnswersAs task c body.new told (answered X.added.meaning task it s)) }
    ensures events { body.new.events ≡ body.old.events }
{
    let Some(outcome) = body.parts.outcome(on) else {
        let _suspension = body.parts.suspend(task, on);
        body.stand_far(task, ResumePoint::Serving(key))?;
        return Ok(Answered::Replies(RequestReply::Suspends));
    };
    let input = input_of(outcome)?;
    let asked = body.extra.wake(alloc, key, input, &mut body.parts)?;
    Ok(Answered::Again(asked))
}
