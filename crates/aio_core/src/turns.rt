//! A turn of the loop.
ghost use Rattle.std.specs.Prelude.{◌≡◌, ◌&&◌, ◌++◌, true, not, length, IfOk, OnOk};
ghost use Rattle.model_wire.specs.declared.watch.Watch.TheVariants as watch;
ghost use Rattle.model_loop.specs.Ending.{cancel_everything as plain_cancel_everything};
ghost use Rattle.model_machine.specs.Outcomes.{finished_as, no_task_lives};
ghost use Rattle.model_machine.specs.Outside.{time_of as plain_time_of};
ghost use Rattle.model_machine.specs.State.{State, in_loop, unbooked_in};
ghost use Rattle.model_machine.specs.Turn.{cancelled_if, finished_if, turn_over, woken_by};
ghost use Rattle.model_machine.specs.Turn.{call_of, is_stalled as plain_is_stalled, wait_of, watched_by};
ghost use Rattle.model_stream.specs.Watching.{entry_if};
ghost use Rattle.refine_parts.specs.Waiting.{is_none_watched};
ghost use Rattle.aio_wire.specs.Port.{PortAsked, ported};
ghost use Rattle.aio_body.specs.Asking.{Comes};
ghost use Rattle.aio_body.specs.Stands.{Context, IsBetween, Possible};
ghost use Rattle.aio_core.specs.Watched.{StandsOn};
ghost use Rattle.aio_core.specs.Turning.{IsSelect, IsTime, TurnMade, Turned, all_below, said_by, turning_by};

use crate::handles::run_below;
use crate::news::note_news;
use crate::went::{Went, copy_of_outcome};
use aio_base::Memory;
use aio_body::{RunState, or_stop};
use aio_extra::Extra;
use aio_step::Stepped;
use aio_wire::{Answer, Call, Port, Stop, Watch, WatchList, Wire};
use std::alloc::Global;

/// The longest wait that is asked for, in milliseconds: a day.
const LONGEST_WAIT: u64 = 86_400_000;

/// A turn: the outside is asked for the time and what came, and then the handles that are pending
/// run, which may ask it too. Once main is done, `seen` is the task that was seen last to live.
pub fn turn<W: Wire, X: Extra>(
    body: &mut RunState<X>,
    alloc: Global,
    wire: &mut W,
    seen: &mut u32,
) -> Result<Went, Stop>
    requires { Possible X.added IsBetween body.old }
    ensures { TurnMade X.added W.outside wire.old wire.new body.old body.new (said_by result) }
{
    if is_stalled(body) {
        return Ok(Went::Stalled);
    }
    match first_call(body, alloc) {
        Ok(call) => match ask(body, alloc, wire, call) {
            Ok(answer) => after(body, alloc, wire, &answer, seen),
            Err(stop) => Err(stop),
        },
        Err(Memory) => Err(Stop::Memory),
    }
}

/// Nothing is pending, and nothing can come.
pub fn is_stalled<X: Extra>(body: &RunState<X>) -> bool
    ensures { (c : Context X.added) (s : State X.added.Kept) → IsBetween c body.now s
        → result ≡ plain_is_stalled X.added.meaning s }
{
    if !body.parts.is_empty() {
        return false;
    }
    body.parts.earliest().is_none() && !is_watched(body)
}

// Whether a turn watches anything.
fn is_watched<X: Extra>(body: &RunState<X>) -> bool
    ensures { (c : Context X.added) (s : State X.added.Kept) → IsBetween c body.now s
        → result ≡ not (is_none_watched (watched_by X.added.meaning s)) }
{
    body.transports.is_watched() || body.extra.watches()
}

// What a turn asks first.
fn first_call<X: Extra>(body: &mut RunState<X>, alloc: Global) -> Result<Call, Memory>
    ensures call { IfOk result
        (λ call. (c : Context X.added) (s : State X.added.Kept) → IsBetween c body.old s
        → call ≡ call_of X.added.meaning s) }
    ensures shape { IfOk result (λ call. IsSelect call) }
    ensures stands { OnOk result (StandsOn X.added body.old body.new) }
{
    let wait = wait(body);
    let watch = watched(body, alloc)?;
    Ok(Call::Select { wait, watch })
}

// What a turn watches: listeners, connections and children in order of opening, and then what is
// added, where it watches.
fn watched<X: Extra>(body: &mut RunState<X>, alloc: Global) -> Result<WatchList, Memory>
    ensures list { IfOk result
        (λ list. (c : Context X.added) (s : State X.added.Kept) → IsBetween c body.old s
        → list ≡ watched_by X.added.meaning s) }
    ensures stands { OnOk result (StandsOn X.added body.old body.new) }
{
    let mut entries = Vec::new(alloc);
    body.transports.watch(&mut entries)?;
    put_extra(&mut entries, body.extra.watches())?;
    Ok(WatchList::of(entries))
}

fn put_extra(entries: &mut Vec<Watch>, watches: bool) -> Result<(), Memory>
    ensures { OnOk result
        (entries.new.items ≡ entries.old.items ++ entry_if watches watch.Extra) }
{
    if watches {
        entries.push(Watch::Extra)?;
    }
    Ok(())
}

// How long a turn waits: not at all where something is pending, else until the next deadline, and
// without a bound where there is none.
fn wait<X: Extra>(body: &RunState<X>) -> Option<u64>
    ensures { (c : Context X.added) (s : State X.added.Kept) → IsBetween c body.now s
        → result ≡ wait_of s.loop.parts }
{
    if !body.parts.is_empty() {
        return Some(0);
    }
    match body.parts.earliest() {
        Some(when) => Some(when.saturating_sub(body.parts.now()).min(LONGEST_WAIT)),
        None => None,
    }
}

// The outside is asked once, and it is noted.
fn ask<W: Wire, X: Extra>(
    body: &mut RunState<X>,
    alloc: Global,
    wire: &mut W,
    call: Call,
) -> Result<Answer, Stop>
    ensures frame { body.new ≡ record body.old { events = body.new.events } }
    ensures asked { PortAsked W.outside call (ported wire.old body.old.events)
        (ported wire.new body.new.events) result }
{
    let mut port = Port::new(wire, &mut body.events);
    port.ask(alloc, call)
}

// What a turn does once it has its answer.
fn after<W: Wire, X: Extra>(
    body: &mut RunState<X>,
    alloc: Global,
    wire: &mut W,
    answer: &Answer,
    seen: &mut u32,
) -> Result<Went, Stop>
    requires alive { Possible X.added IsBetween body.old }
    requires time { IsTime answer.now }
    ensures { Comes W.outside (turning_by X.added answer.now body.old body.new)
        (ported wire.old body.old.events) (ported wire.new body.new.events) result }
{
    match wake(body, alloc, answer) {
        Ok(()) => {
            let done_before = body.main_done;
            match run_below(body, alloc, wire) {
                Ok(Stepped::Goes) => or_stop(end_turn(body, done_before, seen)),
                Ok(Stepped::Runaway(task)) => Ok(Went::Runaway(task)),
                Err(stop) => Err(stop),
            }
        }
        Err(Memory) => Err(Stop::Memory),
    }
}

// The time goes on, and never back. What came appends its callbacks, and behind them stand the
// timers that fall due. All that is pending then stands before the bar.
fn wake<X: Extra>(body: &mut RunState<X>, alloc: Global, answer: &Answer) -> Result<(), Memory>
    requires alive { Possible X.added IsBetween body.old }
    requires time { IsTime answer.now }
    ensures { OnOk result ((c : Context X.added) (s : State X.added.Kept) → IsBetween c body.old s
        → IsBetween (all_below c (unbooked_in (woken_by answer.now) s)) body.new
        (unbooked_in (woken_by answer.now) s)) }
{
    let now = body.parts.now().max(time_of(answer));
    body.parts.set_now(now);
    note_news(&mut body.parts, alloc, answer)?;
    body.parts.due(now);
    body.parts.set_bar();
    Ok(())
}

// After the turn in which main's callback ran, each task that lives is cancelled. The run ends with
// the first turn, from that one on, after which none lives.
fn end_turn<X: Extra>(
    body: &mut RunState<X>,
    done_before: bool,
    seen: &mut u32,
) -> Result<Went, Memory>
    requires { Possible X.added IsBetween body.old }
    ensures { IfOk result
        (λ went. (c : Context X.added) (s : State X.added.Kept) → IsBetween c body.old s
        → Turned c body.new went (turn_over done_before s)) }
{
    cancel_after_main(body, done_before);
    finish(body, seen)
}

fn cancel_after_main<X: Extra>(body: &mut RunState<X>, done_before: bool)
    requires { Possible X.added IsBetween body.old }
    ensures { (c : Context X.added) (s : State X.added.Kept) → IsBetween c body.old s
        → IsBetween c body.new (cancelled_if (s.main_done && not done_before) s) }
{
    if body.main_done && !done_before {
        cancel_everything(body);
    }
}

// The run ends where main's callback ran and no task lives.
fn finish<X: Extra>(body: &RunState<X>, seen: &mut u32) -> Result<Went, Memory>
    requires { Possible X.added IsBetween body.now }
    ensures { IfOk result
        (λ went. (c : Context X.added) (s : State X.added.Kept) → IsBetween c body.now s
        → Turned c body.now went (finished_if (finished_as s) s)) }
{
    if !body.main_done || some_task_lives(body, seen) {
        return Ok(Went::Went);
    }
    match body.parts.outcome(body.parts.future_of(0)) {
        Some(outcome) => Ok(Went::Finished(copy_of_outcome(outcome)?)),
        None => Ok(Went::Went),
    }
}

// Each task that lives is cancelled, in order of making.
fn cancel_everything<X: Extra>(body: &mut RunState<X>)
    requires { Possible X.added IsBetween body.old }
    ensures { (c : Context X.added) (s : State X.added.Kept) → IsBetween c body.old s
        → IsBetween c body.new (in_loop plain_cancel_everything s) }
{
    for task in 0..tasks(body) {
        let own = body.parts.future_of(task);
        if body.parts.is_pending(own) {
            let _answer = body.parts.cancel(own);
        }
    }
}

// From the task on that was seen last to live, and then from the first on. Tasks that are done stay
// done, and new ones have greater numbers, so all turns together look at each task about once.
fn some_task_lives<X: Extra>(body: &RunState<X>, seen: &mut u32) -> bool
    requires { Possible X.added IsBetween body.now }
    ensures { (c : Context X.added) (s : State X.added.Kept) → IsBetween c body.now s
        → result ≡ not (no_task_lives s.loop.parts) }
{
    lives_from(body, seen) || any_lives(body)
}

// Whether a task lives from this one on, which is then that task.
fn lives_from<X: Extra>(body: &RunState<X>, seen: &mut u32) -> bool
    requires { Possible X.added IsBetween body.now }
    ensures { result ≡ true → (c : Context X.added) (s : State X.added.Kept)
        → IsBetween c body.now s
        → true ≡ not (no_task_lives s.loop.parts) }
{
    for task in *seen..tasks(body) {
        if body.parts.is_pending(body.parts.future_of(task)) {
            *seen = task;
            return true;
        }
    }
    false
}

fn any_lives<X: Extra>(body: &RunState<X>) -> bool
    requires { Possible X.added IsBetween body.now }
    ensures { (c : Context X.added) (s : State X.added.Kept) → IsBetween c body.now s
        → result ≡ not (no_task_lives s.loop.parts) }
{
    for task in 0..tasks(body) {
        if body.parts.is_pending(body.parts.future_of(task)) {
            return true;
        }
    }
    false
}

/// How many tasks were made.
pub fn tasks<X: Extra>(body: &RunState<X>) -> u32
    requires { Possible X.added IsBetween body.now }
    ensures { result ≡ length body.now.slots.items }
{
    body.slots.len() as u32
}

fn time_of(answer: &Answer) -> u64
    ensures { result ≡ plain_time_of answer.now }
{
    match answer {
        Answer::Turn { now, items: _ } => *now,
        _ => 0,
    }
}
