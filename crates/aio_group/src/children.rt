//! Tasks of a group: they are made, and done.
ghost use Rattle.std.specs.Prelude.{◌≡◌, ◌<◌, ◌++◌, ◌||◌, ◌∷◌, [], true, None, Some, IfOk, OnOk, OnErr, is_some, length};
ghost use Rattle.std.specs.Prelude.{if◌then◌else◌};
ghost use Rattle.model_loop.specs.Cancel.{has_seen};
ghost use Rattle.model_loop.specs.Parts.{Parts as PlainParts};
ghost use Rattle.model_loop.specs.Groups as plain;
ghost use Rattle.aio_task.specs.Keeps.{NameMap, Keeps, Kept};
ghost use Rattle.aio_group.specs.GoesOn.{Moves};
ghost use Rattle.aio_group.specs.Stands.{Belongs, GroupSteps};

use crate::abort::{abort, request_parent};
use crate::failures::failure_of;
use crate::group::Group;
use aio_base::{Action, Memory, Outcome, Value};
use aio_task::{Parts, Ticket};
use std::alloc::Global;

// A new task, whose group is told when it is done.
fn spawn_for(alloc: Global, id: u32, ticket: Ticket, parts: &mut Parts) -> Result<u32, Memory>
    requires idle { parts.old.called ≡ None }
    ensures number { IfOk result (λ task. task ≡ length parts.old.tasks) }
    ensures kept { OnOk result ((t : NameMap) (p : PlainParts) → Keeps t parts.old p
        → Kept t p parts.new (plain.with_child id p)) }
    ensures moves { Moves parts.old parts.new }
    ensures made { OnOk result (length parts.old.tasks < length parts.new.tasks) }
    ensures err { OnErr result (parts.new ≡ parts.old) }
{
    let task = parts.spawn(alloc)?;
    let future = parts.future_of(task);
    parts.on_done(future, ticket, Action::GroupDone { group: id, task });
    Ok(task)
}

/// A task is made in a group that doesn't refuse it.
pub fn create(alloc: Global, id: u32, group: &mut Group, parts: &mut Parts) -> Result<u32, Memory>
    requires idle { parts.old.called ≡ None }
    requires belongs { Belongs parts.old group.old }
    ensures number { IfOk result (λ task. task ≡ length parts.old.tasks) }
    ensures same { OnOk result (group.new ≡ record group.old {
      children = group.old.children ++ length parts.old.tasks ∷ [];
    }) }
    ensures kept { OnOk result ((t : NameMap) (p : PlainParts) → Keeps t parts.old p
        → Kept t p parts.new (plain.with_child id p)) }
    ensures moves { Moves parts.old parts.new }
    ensures belongs { Belongs parts.new group.new }
    ensures err { OnErr result ((group.new ≡ group.old) × (parts.new ≡ parts.old)) }
{
    let Ok(next) = u32::try_from(parts.tasks()) else {
        return Err(Memory);
    };
    let ticket = parts.ticket(alloc)?;
    group.add(next)?;
    match spawn_for(alloc, id, ticket, parts) {
        Ok(task) => Ok(task),
        Err(refused) => {
            group.remove(next);
            Err(refused)
        }
    }
}

// After the last child the exit that waits goes on.
fn wake_exit(group: &Group, parts: &mut Parts)
    requires idle { parts.old.called ≡ None }
    requires belongs { Belongs parts.old group.now }
    ensures moves { Moves parts.old parts.new }
    ensures steps { GroupSteps group.now parts.old group.now parts.new plain.wake_exit }
{
    if !group.is_empty() {
        return;
    }
    match group.exit_future() {
        Some(future) => {
            let _was_pending = parts.resolve(future, Outcome::Value(Value::nothing()));
        }
        None => {}
    }
}

// The first failure aborts the group and asks for its parent's cancel, unless the group aborts
// already.
fn blame(group: &mut Group, parts: &mut Parts)
    requires idle { parts.old.called ≡ None }
    ensures same { group.new ≡ record group.old {
      aborting = group.new.aborting;
      requested = group.new.requested;
    } }
    ensures moves { Moves parts.old parts.new }
    ensures steps { GroupSteps group.old parts.old group.new parts.new
        (λ id l. if (plain.group_of l id).aborting || (plain.group_of l id).requested then l
        else plain.request_parent id (plain.abort id l)) }
{
    if group.is_blamed() {
        return;
    }
    abort(group, parts);
    request_parent(group, parts);
}

/// A child is done.
pub fn child_done(child: u32, group: &mut Group, parts: &mut Parts)
    requires idle { parts.old.called ≡ None }
    requires belongs { Belongs parts.old group.old }
    requires child { has_seen group.old.children child ≡ true }
    ensures moves { Moves parts.old parts.new }
    ensures belongs { Belongs parts.new group.new }
    ensures steps { GroupSteps group.old parts.old group.new parts.new
        (λ id. plain.child_done id child) }
{
    let failed = failure_of(child, parts).is_some();
    group.hear_of(child, failed);
    wake_exit(group, parts);
    if !failed {
        return;
    }
    blame(group, parts);
}
