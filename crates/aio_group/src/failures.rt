//! What a group's tasks raised.
ghost use Rattle.std.specs.Prelude.{◌≡◌, ◌++◌, IfOk, OnOk};
ghost use Rattle.std.specs.Option.{option_copied};
ghost use Rattle.model_loop.specs.Children.{failures};
ghost use Rattle.model_loop.specs.Groups.{failure_of, exception_group, is_bearable};
ghost use Rattle.model_loop.specs.Tasks.{is_cancelled};
ghost use Rattle.aio_task.specs.View.{parts as parts_of};
ghost use Rattle.aio_group.specs.Held.{listed};
ghost use Rattle.aio_group.specs.Answers.{fault_of};

use aio_base::{Exc, ExcList, Kind, Memory, Outcome, depth_of_exc, exception, weight_of_exc};
use aio_task::Parts;
use std::alloc::Global;
use std::rc::Rc;

const TEXT: &str = "unhandled errors in a TaskGroup";

/// Whether an exception is a cancel's.
pub fn is_cancelled(fault: &Exc) -> bool
    ensures { result ≡ is_cancelled fault.now }
{
    fault.kind() == Kind::CancelledError
}

/// The exception with which a task failed, if it did.
pub fn failure_of(task: u32, parts: &Parts) -> Option<&Exc>
    ensures { option_copied result ≡ failure_of (parts_of parts.now) task }
{
    match parts.outcome(parts.future_of(task)) {
        Some(Outcome::Failed(fault)) => Some(fault),
        _ => None,
    }
}

// A copy of an exception goes last, if there is one.
fn push_copy(members: &mut Vec<Exc>, fault: Option<&Exc>) -> Result<(), Memory>
    ensures { OnOk result (members.new.items
        ≡ members.old.items ++ listed (option_copied fault.entry)) }
{
    if let Some(fault) = fault {
        members.push(fault.clone()?)?;
    }
    Ok(())
}

// The exceptions of those of these tasks that failed, and this one last.
fn members_of(
    alloc: Global,
    failed: &[u32],
    body: Option<&Exc>,
    parts: &Parts,
) -> Result<Vec<Exc>, Memory>
    ensures { IfOk result (λ members. members.items
        ≡ failures (parts_of parts.now) failed.now ++ listed (option_copied body.entry)) }
{
    let mut members = Vec::new(alloc);
    for task in failed {
        push_copy(&mut members, failure_of(*task, parts))?;
    }
    push_copy(&mut members, body)?;
    Ok(members)
}

// Whether an exception is neither too deep nor too heavy.
fn is_bearable(fault: &Exc) -> bool
    ensures { result ≡ is_bearable fault.now }
{
    depth_of_exc(fault) <= 64 && weight_of_exc(fault) <= 1_048_576
}

// The exception of these members. One that would be too deep or too heavy loses them.
fn grouped(alloc: Global, members: Vec<Exc>) -> Result<Exc, Memory>
    ensures { IfOk result (λ fault. fault ≡ exception_group members.items) }
{
    let fault = exception(alloc, Kind::ExceptionGroup, TEXT)?;
    let members = Rc::new(alloc, ExcList::of(members))?;
    let whole = fault.clone()?.with_members(alloc, members)?;
    if is_bearable(&whole) {
        Ok(whole)
    } else {
        Ok(fault)
    }
}

/// The exception of all failures: those of these tasks, in order, and the body's last. `None` where
/// there are none.
pub fn fault_of(
    alloc: Global,
    failed: &[u32],
    body: Option<&Exc>,
    parts: &Parts,
) -> Result<Option<Exc>, Memory>
    ensures { IfOk result (λ fault. fault
        ≡ fault_of
        (failures (parts_of parts.now) failed.now ++ listed (option_copied body.entry))) }
{
    let members = members_of(alloc, failed, body, parts)?;
    if members.is_empty() {
        return Ok(None);
    }
    let fault = grouped(alloc, members)?;
    Ok(Some(fault))
}
