//! The handle by which a timeout waits for its deadline.
ghost use Rattle.std.specs.Prelude.{◌≡◌, ℕ, None, Some, Option, IfOk, OnOk, OnErr, length};
ghost use Rattle.model_value.specs.declared.action.Action.TheVariants as action;
ghost use Rattle.model_loop.specs.Parts as plain;
ghost use Rattle.model_loop.specs.Handles.{soon, later};
ghost use Rattle.model_loop.specs.Timeouts.{give_up};
ghost use Rattle.aio_task.specs.Keeps.{NameMap, Keeps};
ghost use Rattle.aio_timeout.specs.Kept.{IsHandler, StepsNone, IsSameStep};
ghost use Rattle.aio_timeout.specs.Scheduled.{Made, fires_if, tag_if};

use aio_base::{Action, Memory};
use aio_task::{HandleId, Parts, Ticket, TimerId};
use std::alloc::Global;

// `Parts::soon` gives no more numbers than so many.
const MOST_GIVEN: u64 = 1 << 62;

/// What waits for a deadline, and asks for the cancel of the timeout's task.
#[derive(Clone, Copy)]
pub enum TimeoutHandler {
    /// A pending handle, of a deadline that wasn't later than the time.
    Soon(HandleId),
    /// A timer.
    At(TimerId),
}

/// A handle of a timeout for a deadline, if there is one. One that isn't later than the time is
/// over soon.
pub fn schedule(
    alloc: Global,
    id: u32,
    when: Option<u64>,
    parts: &mut Parts,
) -> Result<Option<TimeoutHandler>, Memory>
    requires idle { parts.old.called ≡ None }
    ensures after { IfOk result (λ handler. (t : NameMap) (p : plain.Parts) → Keeps t parts.old p
        → Made t p handler parts.new (fires_if id when p) (tag_if when p)) }
    ensures steps { OnOk result ((other : Option TimeoutHandler) → StepsNone parts.old.queue other
        → StepsNone parts.new.queue other) }
    ensures below { length parts.new.queue.below ≡ length parts.old.queue.below }
    ensures step { IsSameStep parts.old parts.new }
    ensures err { OnErr result (parts.new ≡ parts.old) }
{
    let Some(when) = when else {
        return Ok(None);
    };
    let ticket = parts.ticket(alloc)?;
    let over = when <= parts.now();
    if over {
        call_soon(id, ticket, parts)
    } else {
        call_at(alloc, id, when, ticket, parts)
    }
}

// A pending handle, which can be cancelled: it has a number.
fn call_soon(id: u32, ticket: Ticket, parts: &mut Parts) -> Result<Option<TimeoutHandler>, Memory>
    requires idle { parts.old.called ≡ None }
    ensures after { IfOk result (λ handler. (t : NameMap) (p : plain.Parts) → Keeps t parts.old p
        → Made t p handler parts.new (soon (action.Fires id) p) (Some p.next_tag)) }
    ensures steps { OnOk result ((other : Option TimeoutHandler) → StepsNone parts.old.queue other
        → StepsNone parts.new.queue other) }
    ensures below { length parts.new.queue.below ≡ length parts.old.queue.below }
    ensures step { IsSameStep parts.old parts.new }
    ensures err { OnErr result (parts.new ≡ parts.old) }
{
    let all_given = parts.given() >= MOST_GIVEN;
    if all_given {
        return Err(Memory);
    }
    let handle = parts.soon(ticket, Action::Fires(id));
    Ok(Some(TimeoutHandler::Soon(handle)))
}

fn call_at(
    alloc: Global,
    id: u32,
    when: u64,
    ticket: Ticket,
    parts: &mut Parts,
) -> Result<Option<TimeoutHandler>, Memory>
    requires idle { parts.old.called ≡ None }
    ensures after { IfOk result (λ handler. (t : NameMap) (p : plain.Parts) → Keeps t parts.old p
        → Made t p handler parts.new (later when (action.Fires id) p) (Some p.next_tag)) }
    ensures queue { parts.new.queue ≡ parts.old.queue }
    ensures step { IsSameStep parts.old parts.new }
    ensures err { OnErr result (parts.new ≡ parts.old) }
{
    match parts.at(alloc, when, ticket, Action::Fires(id)) {
        Ok(timer) => Ok(Some(TimeoutHandler::At(timer))),
        Err(unplaced) => Err(unplaced.cause),
    }
}

/// A handle is given up, if there is one.
pub fn give_up(handler: Option<TimeoutHandler>, parts: &mut Parts)
    requires idle { parts.old.called ≡ None }
    requires steps_none { StepsNone parts.old.queue handler }
    ensures after { (t : NameMap) (p : plain.Parts) (tag : Option ℕ) → Keeps t parts.old p
        → IsHandler t p handler tag → Keeps t parts.new (give_up tag p) }
    ensures below { length parts.new.queue.below ≡ length parts.old.queue.below }
    ensures step { IsSameStep parts.old parts.new }
{
    match handler {
        Some(TimeoutHandler::Soon(handle)) => parts.cancel_handle(handle),
        Some(TimeoutHandler::At(timer)) => parts.cancel_timer(timer),
        None => {}
    }
}
