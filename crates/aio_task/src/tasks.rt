//! What steps change of the queue, the futures and the tasks.
ghost use Rattle.std.specs.Prelude.{◌≡◌, ◌-◌, false, None, Some, IfOk, OnOk, OnErr, Ok, Err, length, if◌then◌else◌};
ghost use Rattle.model_loop.specs.Handles as handles;
ghost use Rattle.model_loop.specs.Parts.{profile_named};
ghost use Rattle.model_loop.specs.Tasks as tasks;
ghost use Rattle.model_loop.specs.Suspend.{wait_on};
ghost use Rattle.model_value.specs.declared.action.Action.TheVariants as action;
ghost use Rattle.model_value.specs.declared.outcome.Outcome.TheVariants as outcome;
ghost use Rattle.aio_ready.specs.Queue.{soon};
ghost use Rattle.aio_cancel.specs.Awaitables.{parts, Appended};

use aio_base::{Action, Exc, Input, Kind as ExcKind, Memory, Outcome, Value};
use aio_cancel::{Awaitables, Task};
use aio_future::{FutureId, FutureKind};
use aio_ready::Ticket;
use std::alloc::Global;

/// A task's own future.
pub fn future_of(body: &Awaitables, task: u32) -> FutureId
    ensures { result ≡ tasks.future_of (parts body.now) task }
{
    match body.tasks.get(task as usize) {
        Some(task) => task.future(),
        None => body.futures.next(),
    }
}

/// How many requests to cancel a task count.
pub fn cancels_of(body: &Awaitables, task: u32) -> u64
    ensures { result ≡ tasks.cancelling (parts body.now) task }
{
    match body.tasks.get(task as usize) {
        Some(task) => task.cancels(),
        None => 0,
    }
}

/// What a task waits for.
pub fn waiter_of(body: &Awaitables, task: u32) -> Option<FutureId>
    ensures { result ≡ tasks.waiter_of (parts body.now) task }
{
    match body.tasks.get(task as usize) {
        Some(task) => task.waiter(),
        None => None,
    }
}

/// Whether a cancel waits for a task's next step.
pub fn must_cancel_of(body: &Awaitables, task: u32) -> bool
    ensures { result ≡ tasks.must_cancel_of (parts body.now) task }
{
    match body.tasks.get(task as usize) {
        Some(task) => task.must_cancel_of(),
        None => false,
    }
}

/// No cancel waits for a task's next step.
pub fn clear_must_cancel(body: &mut Awaitables, task: u32)
    ensures after { parts body.new ≡ tasks.clear_must_cancel task (parts body.old) }
    ensures queue { body.new.queue ≡ body.old.queue }
    ensures futures { body.new.futures ≡ body.old.futures }
{
    if let Some(task) = body.tasks.get_mut(task as usize) {
        task.clear_must_cancel();
    }
}

/// What a task waits for.
pub fn set_waiter(body: &mut Awaitables, task: u32, waiter: Option<FutureId>)
    ensures after { parts body.new ≡ tasks.set_waiter task waiter (parts body.old) }
    ensures queue { body.new.queue ≡ body.old.queue }
    ensures futures { body.new.futures ≡ body.old.futures }
{
    if let Some(task) = body.tasks.get_mut(task as usize) {
        task.set_waiter(waiter);
    }
}

/// A positive count of requests to cancel a task falls by one. In profile 2, where it falls to 0 by
/// it, no cancel waits for the task's next step any more.
pub fn uncancel(body: &mut Awaitables, profile: u8, task: u32)
    ensures after { parts body.new
        ≡ tasks.uncancel (profile_named profile) task (parts body.old) }
    ensures queue { body.new.queue ≡ body.old.queue }
    ensures futures { body.new.futures ≡ body.old.futures }
{
    if let Some(task) = body.tasks.get_mut(task as usize) {
        lower(profile, task);
    }
}

// One request less is counted, and by profile 2 the last of them takes along what waits for the
// next step.
fn lower(profile: u8, task: &mut Task)
    ensures { task.new ≡ record task.old {
      cancels = task.old.cancels - 1;
      must_cancel = tasks.must_still_cancel (profile_named profile) task.old;
    } }
{
    if profile == 2 && task.cancels() == 1 {
        task.clear_must_cancel();
    }
    task.lower();
}

/// `call_soon`, in the memory of a ticket.
pub fn call_soon(body: &mut Awaitables, ticket: Ticket, action: Action)
    ensures whole { body.new ≡ record body.old { queue = soon action body.old.queue } }
    ensures after { parts body.new ≡ handles.soon action (parts body.old) }
{
    let _id = body.ready.soon(ticket, action);
}

/// A new task with its future, whose first step is called soon.
pub fn add(body: &mut Awaitables, alloc: Global) -> Result<u32, Memory>
    ensures number { IfOk result (λ task. task ≡ length body.old.tasks) }
    ensures after { OnOk result (parts body.new ≡ tasks.spawn (parts body.old)) }
    ensures queue { OnOk result
        (body.new.queue ≡ soon (action.Step (length body.old.tasks)) body.old.queue) }
    ensures err { OnErr result (body.new ≡ body.old) }
{
    let Ok(task) = u32::try_from(body.tasks.len()) else {
        return Err(Memory);
    };
    let ticket = body.ready.ticket(alloc)?;
    body.tasks.reserve(1)?;
    let future = body.futures.make(alloc, FutureKind::OfTask(task))?;
    let pushed = body.tasks.push(Task::new(future));
    prove!(pushed.is_ok());
    let _id = body.ready.soon(ticket, Action::Step(task));
    Ok(task)
}

/// A step begins: the task waits no more, and no cancel waits for its step.
/// The answer is whether one did.
pub fn begin(body: &mut Awaitables, task: u32) -> bool
    ensures must_cancel { result ≡ tasks.must_cancel_of (parts body.old) task }
    ensures after { parts body.new
        ≡ tasks.clear_must_cancel task (tasks.set_waiter task None (parts body.old)) }
    ensures queue { body.new.queue ≡ body.old.queue }
    ensures futures { body.new.futures ≡ body.old.futures }
{
    let must_cancel = must_cancel_of(body, task);
    set_waiter(body, task, None);
    clear_must_cancel(body, task);
    must_cancel
}

/// What a coroutine is resumed with where a cancel waited for its step.
pub fn input_of(must_cancel: bool, input: Input) -> Input
    ensures { result ≡ (if must_cancel then tasks.cancelling_input input else input) }
{
    if !must_cancel {
        return input;
    }
    match input {
        Input::Send(_) => Input::Throw(Exc::bare(ExcKind::CancelledError)),
        Input::Throw(fault) => Input::Throw(cancelled(fault)),
    }
}

// An exception that cancels: the one that is thrown anyway, where it does.
fn cancelled(fault: Exc) -> Exc
    ensures { result ≡ (if tasks.is_cancelled fault then fault else tasks.cancelled_error) }
{
    if is_cancelled(&fault) {
        fault
    } else {
        Exc::bare(ExcKind::CancelledError)
    }
}

// Whether an exception is a cancel's.
fn is_cancelled(fault: &Exc) -> bool
    ensures { result ≡ tasks.is_cancelled fault.now }
{
    fault.kind() == ExcKind::CancelledError
}

/// The task is woken when a future is done.
pub fn wait(body: &mut Awaitables, task: u32, on: FutureId, ticket: Ticket)
    ensures after { parts body.new ≡ wait_on task on (parts body.old) }
    ensures queue { Appended body.old.queue body.new.queue }
{
    body.futures
        .on_done(on, ticket, Action::Wakeup(task), &mut body.ready);
    set_waiter(body, task, Some(on));
}

/// A task is done.
pub fn finish(body: &mut Awaitables, task: u32, end: Result<Value, Exc>)
    ensures after { parts body.new ≡ tasks.finish task end (parts body.old) }
    ensures queue { Appended body.old.queue body.new.queue }
{
    let future = future_of(body, task);
    match end {
        Ok(value) => {
            let outcome = returned(must_cancel_of(body, task), value);
            clear_must_cancel(body, task);
            body.settle(future, outcome);
        }
        Err(fault) => body.settle(future, raised(fault)),
    }
}

// How a task ends that returned.
fn returned(must_cancel: bool, value: Value) -> Outcome
    ensures { result ≡ (if must_cancel then outcome.Cancelled else outcome.Value value) }
{
    if must_cancel {
        Outcome::Cancelled
    } else {
        Outcome::Value(value)
    }
}

// How a task ends that raised.
fn raised(fault: Exc) -> Outcome
    ensures { result
        ≡ (if tasks.is_cancelled fault then outcome.Cancelled else outcome.Failed fault) }
{
    if is_cancelled(&fault) {
        Outcome::Cancelled
    } else {
        Outcome::Failed(fault)
    }
}
