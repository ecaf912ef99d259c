//! Requests of task groups.
ghost use Rattle.std.specs.Prelude.{◌≡◌, ◌<◌, ℕ, true, None, Some, IfOk, length, slice_get};
ghost use Rattle.model_value.specs.declared.action.Action.TheVariants.{GroupDone};
ghost use Rattle.model_value.specs.declared.request.Request.TheVariants as request;
ghost use Rattle.model_loop.specs.Futures.{is_pending_at};
ghost use Rattle.model_loop.specs.Groups.{child_done};
ghost use Rattle.model_machine.specs.Replies.{decides};
ghost use Rattle.model_machine.specs.State.{State, Leaving, in_loop};
ghost use Rattle.aio_group.specs.declared.exit.GroupExit.TheVariants.{Waits};
ghost use Rattle.aio_body.specs.Asked.{SomeGoes, Serves, IsDeciding, Says, IsAskingFor, IsGoing};
ghost use Rattle.aio_body.specs.Stands.{Context, Possible};
ghost use Rattle.aio_body.specs.Taken.{IsTaken, IsAfterCallback};
ghost use Rattle.aio_serve.specs.GoneOn.{GoneOn};

use aio_base::{Exc, Input, Memory, Value, ValueList};
use aio_body::{MOST_IDS, Near, RequestReply, RunState, as_group, bad_argument, out_of_range};
use aio_extra::Extra;
use aio_group::GroupExit;
use std::alloc::Global;

/// The group is made and entered at once.
pub fn enter_group<X: Extra>(
    body: &mut RunState<X>,
    alloc: Global,
    task: u32,
) -> Result<RequestReply, Memory>
    requires { Possible X.added (IsGoing task) body.old }
    ensures { Serves X.added task request.GroupEnter body.old body.new result }
{
    if body.groups.len() >= MOST_IDS {
        return out_of_range(alloc);
    }
    let id = body.groups.make(alloc, task)?;
    body.groups.enter(id);
    Ok(RequestReply::Answers(Value::group(id)))
}

/// The end of a `with group`, with the exception that leaves it (`TaskGroup.__aexit__`).
pub fn exit_group<X: Extra>(
    body: &mut RunState<X>,
    alloc: Global,
    task: u32,
    group: &Value,
    fault: Option<Exc>,
) -> Result<RequestReply, Memory>
    requires { Possible X.added (IsAskingFor task (request.GroupExit group.now fault)) body.old }
    ensures { Serves X.added task (request.GroupExit group.now fault) body.old body.new result }
{
    let Some(id) = as_group(group) else {
        return bad_argument(alloc);
    };
    let exit = body.groups.exit_begin(alloc, id, fault, &mut body.parts)?;
    Ok(go_on(body, task, id, exit))
}

// An exit that waits suspends its task.
fn go_on<X: Extra>(body: &mut RunState<X>, task: u32, group: u32, exit: GroupExit) -> RequestReply
    requires idle { body.old.parts.called ≡ None }
    requires running { body.old.parts.running ≡ Some task }
    requires within { task < length body.old.slots.items }
    requires pending { (future : ℕ) → exit ≡ Waits future
        → is_pending_at (slice_get body.old.parts.futures future) ≡ true }
    ensures { GoneOn task group exit body.old body.new result }
{
    match exit {
        GroupExit::Waits(future) => {
            let _suspension = body.parts.suspend(task, future);
            body.stand(task, Near::Leaving(group));
            RequestReply::Suspends
        }
        GroupExit::Passes => RequestReply::Answers(Value::nothing()),
        GroupExit::Raises(fault) => RequestReply::Raises(fault),
    }
}

/// `create(g, NAME, ..)`. RuntimeError where the group takes no task (`TaskGroup.create_task`).
pub fn create<X: Extra>(
    body: &mut RunState<X>,
    alloc: Global,
    group: &Value,
    coroutine: u32,
    arguments: &ValueList,
) -> Result<RequestReply, Memory>
    requires { Possible X.added SomeGoes body.old }
    ensures { (task : ℕ)
        → Serves X.added task
        (request.Create group.now coroutine arguments.now) body.old body.new result }
{
    let Some(id) = as_group(group) else {
        return bad_argument(alloc);
    };
    let made = body.slots.len();
    if made >= MOST_IDS {
        return out_of_range(alloc);
    }
    let created = body.groups.create(alloc, id, &mut body.parts)?;
    if let Some(fault) = created.fault(alloc)? {
        return Ok(RequestReply::Raises(fault));
    }
    body.hold(alloc, coroutine, arguments)?;
    Ok(RequestReply::Answers(Value::task(made as u32)))
}

/// The exit of a group goes on after its wait.
pub fn leave_group<X: Extra>(
    body: &mut RunState<X>,
    alloc: Global,
    task: u32,
    group: u32,
    input: Input,
) -> Result<RequestReply, Memory>
    requires { Possible X.added (IsDeciding task (Leaving group)) body.old }
    ensures { IfOk result
        (λ said. (c : Context X.added) (s : State X.added.Kept)
        → IsDeciding task (Leaving group) c body.old s
        → Says task c body.new said (decides X.added.meaning (Leaving group) task input s)) }
{
    let exit = body
        .groups
        .exit_woken(alloc, group, input, &mut body.parts)?;
    Ok(go_on(body, task, group, exit))
}

/// A task of a group is done.
pub fn child_done<X: Extra>(body: &mut RunState<X>, group: u32, task: u32)
    requires { Possible X.added (IsTaken (GroupDone group task)) body.old }
    ensures { (c : Context X.added) (s : State X.added.Kept)
        → IsTaken (GroupDone group task) c body.old s
        → IsAfterCallback c body.new (in_loop (child_done group task) s) }
{
    body.groups.child_done(group, task, &mut body.parts);
}
