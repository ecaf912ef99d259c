//! A task's step ends with the await of a future that isn't done.
ghost use Rattle.std.specs.Prelude.{◌≡◌, true, None, Some};
ghost use Rattle.model_loop.specs.Cycles.{cycle};
ghost use Rattle.model_loop.specs.Owning.{OwnsFutures};
ghost use Rattle.model_loop.specs.Sound.{HasNoCycle};
ghost use Rattle.model_loop.specs.Suspend.{suspend as suspend_of};
ghost use Rattle.model_loop.specs.Tasks.{must_cancel_of as must_cancel_in, lives};
ghost use Rattle.model_loop.specs.Ways.{HasOneWay};
ghost use Rattle.model_loop.specs.Suspend.{cancel_wait};
ghost use Rattle.aio_cancel.specs.Awaitables.{parts, Appended};
ghost use Rattle.aio_cancel.specs.Noted.{HasNoNotes};
ghost use Rattle.aio_cancel.specs.Room.{HasRoom};
ghost use Rattle.aio_task.specs.View.{suspension_of};

use crate::suspension::Suspension;
use crate::tasks::{call_soon, clear_must_cancel, future_of, must_cancel_of, wait};
use aio_base::{Action, CycleKind};
use aio_cancel::{Awaitables, Marks, Notes, WalkStack, cancel, leads};
use aio_future::FutureId;
use aio_ready::Ticket;

// Why a task can't wait for a future, if it can't. Where nobody waits for the task, no cycle goes
// through it, and there is nothing to look for.
fn find_cycle(
    task: u32,
    on: FutureId,
    body: &Awaitables,
    seen: &mut Marks,
    notes: &mut Notes,
    stack: &mut WalkStack,
) -> Option<CycleKind>
    requires owns { OwnsFutures (parts body.now) }
    requires one_way { HasOneWay (Some task) (parts body.now) }
    requires lives { lives (parts body.now) task ≡ true }
    requires no_cycle { HasNoCycle (parts body.now) }
    requires room { HasRoom body.now stack.old seen.old notes.old }
    ensures answer { result ≡ cycle (parts body.now) task on }
    ensures stack { stack.new ≡ stack.old }
    ensures seen { seen.new ≡ seen.old }
    ensures unnoted { HasNoNotes notes.new }
{
    let own = future_of(body, task);
    if on == own {
        return Some(CycleKind::Itself);
    }
    let awaited = body.may_be_awaited(own);
    if !awaited {
        return None;
    }
    if leads(on, own, body, seen, notes, stack) {
        Some(CycleKind::ItsWaiter)
    } else {
        None
    }
}

// A task that must cancel cancels what it waits for; where that can't be cancelled, it still must
// cancel.
fn cancel_waiting(
    task: u32,
    on: FutureId,
    body: &mut Awaitables,
    seen: &mut Marks,
    notes: &mut Notes,
    stack: &mut WalkStack,
)
    requires no_cycle { HasNoCycle (parts body.old) }
    requires room { HasRoom body.old stack.old seen.old notes.old }
    ensures after { parts body.new
        ≡ (cancel_wait (must_cancel_in (parts body.old) task) task on (parts body.old)).parts }
    ensures queue { Appended body.old.queue body.new.queue }
    ensures stack { stack.new ≡ stack.old }
    ensures seen { seen.new ≡ seen.old }
    ensures unnoted { HasNoNotes notes.new }
{
    if !must_cancel_of(body, task) {
        return;
    }
    if cancel(on, body, seen, notes, stack) {
        clear_must_cancel(body, task);
    }
}

/// The running task awaits a pending future.
pub fn suspend(
    task: u32,
    on: FutureId,
    ticket: Ticket,
    body: &mut Awaitables,
    seen: &mut Marks,
    notes: &mut Notes,
    stack: &mut WalkStack,
) -> Suspension
    requires owns { OwnsFutures (parts body.old) }
    requires one_way { HasOneWay (Some task) (parts body.old) }
    requires lives { lives (parts body.old) task ≡ true }
    requires no_cycle { HasNoCycle (parts body.old) }
    requires room { HasRoom body.old stack.old seen.old notes.old }
    ensures answer { result ≡ suspension_of (cycle (parts body.old) task on) }
    ensures after { parts body.new ≡ (suspend_of task on (parts body.old)).parts }
    ensures queue { Appended body.old.queue body.new.queue }
    ensures stack { stack.new ≡ stack.old }
    ensures seen { seen.new ≡ seen.old }
    ensures unnoted { HasNoNotes notes.new }
{
    match find_cycle(task, on, body, seen, notes, stack) {
        Some(cycle) => {
            call_soon(body, ticket, Action::StepInCycle { task, cycle });
            Suspension::Cycle
        }
        None => {
            wait(body, task, on, ticket);
            cancel_waiting(task, on, body, seen, notes, stack);
            Suspension::Suspended
        }
    }
}
