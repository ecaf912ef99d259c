//! A group's exit.
ghost use Rattle.std.specs.Prelude.{◌≡◌, ◌&&◌, not, is_some, true, false, None, Some, Option, IfOk, OnErr};
ghost use Rattle.std.specs.Option.{option_copied};
ghost use Rattle.model_value.specs.Value.{Exc as PlainExc};
ghost use Rattle.model_value.specs.declared.input.Input.TheVariants as input;
ghost use Rattle.model_loop.specs.Groups as plain;
ghost use Rattle.model_loop.specs.Parts.{profile_named};
ghost use Rattle.aio_group.specs.Held.{failing};
ghost use Rattle.aio_group.specs.Answers.{fault_of};
ghost use Rattle.aio_group.specs.GoesOn.{Moves};
ghost use Rattle.aio_group.specs.Exits.{begun, heard, last_step, taken_back, IsNext, Exits};
ghost use Rattle.aio_group.specs.Stands.{Belongs, GroupSteps};
ghost use Rattle.aio_group.specs.declared.exit.ExitStep.TheVariants as next;

use crate::abort::abort;
use crate::exit::{ExitStep, GroupExit};
use crate::failures::{fault_of, is_cancelled};
use crate::group::Group;
use aio_base::{Exc, Input, Memory};
use aio_task::Parts;
use std::alloc::Global;

// How the exit goes on, with all the memory that it takes. What comes before it cancels tasks and
// makes none, so the future that is made here has the number of one made last.
fn next(
    alloc: Global,
    group: &Group,
    body: Option<&Exc>,
    parts: &mut Parts,
) -> Result<ExitStep, Memory>
    requires idle { parts.old.called ≡ None }
    ensures moves { Moves parts.old parts.new }
    ensures next { IfOk result
        (λ next. IsNext group.now (option_copied body.entry) parts.old next parts.new) }
    ensures err { OnErr result (parts.new ≡ parts.old) }
{
    if group.is_empty() {
        let fault = fault_of(alloc, group.failed(), body, parts)?;
        Ok(ExitStep::Ends(fault))
    } else {
        parts.keeps();
        let future = parts.new_plain(alloc)?;
        Ok(ExitStep::Waits(future))
    }
}

// The exception with which the block ended, where it is a failure.
fn failure_in(raised: &Option<Exc>) -> Option<&Exc>
    ensures { option_copied result ≡ failing raised.now }
{
    match raised {
        Some(fault) if !is_cancelled(fault) => Some(fault),
        _ => None,
    }
}

// Whether a group takes its request back as its exit ends, and not as it begins: in profile 2.
fn is_taken_back_last(parts: &Parts) -> bool
    ensures begin { not result ≡ plain.at_begin (profile_named parts.now.profile) }
    ensures end { result ≡ plain.at_end (profile_named parts.now.profile) }
{
    parts.profile() == 2
}

// The group's own request is taken back, where it is time to. Where no other cancel of the parent
// is left, nothing is kept.
fn take_back(now: bool, group: &mut Group, parts: &mut Parts)
    requires idle { parts.old.called ≡ None }
    ensures same { group.new ≡ record group.old { kept = group.new.kept } }
    ensures moves { Moves parts.old parts.new }
    ensures steps { GroupSteps group.old parts.old group.new parts.new
        (taken_back (profile_named parts.old.profile) now) }
{
    if !now {
        return;
    }
    if !group.has_requested() {
        return;
    }
    let left = parts.uncancel(group.parent());
    if left == 0 {
        group.drop_kept();
    }
}

// A body that raised aborts the group.
fn abort_if(failed: bool, group: &mut Group, parts: &mut Parts)
    requires idle { parts.old.called ≡ None }
    ensures same { group.new ≡ record group.old { aborting = group.new.aborting } }
    ensures moves { Moves parts.old parts.new }
    ensures steps { (raised : Option PlainExc) → failed ≡ is_some raised
        → GroupSteps group.old parts.old group.new parts.new (plain.abort_if_raised raised) }
{
    if !failed {
        return;
    }
    if group.aborts() {
        return;
    }
    abort(group, parts);
}

// What the block's end does before the exit waits or ends.
fn begin(group: &mut Group, raised: Option<Exc>, parts: &mut Parts)
    requires idle { parts.old.called ≡ None }
    ensures same { group.new ≡ record group.old {
      exiting = true;
      aborting = group.new.aborting;
      body = failing raised;
      kept = group.new.kept;
    } }
    ensures moves { Moves parts.old parts.new }
    ensures steps { GroupSteps group.old parts.old group.new parts.new
        (begun (profile_named parts.old.profile) raised) }
{
    let failed = raised.is_some();
    group.set_exiting(raised);
    let now = !is_taken_back_last(parts);
    take_back(now, group, parts);
    abort_if(failed, group, parts);
}

// A cancel of the parent is kept and aborts the group, unless the group aborts already.
fn hear_cancel(group: &mut Group, fault: Exc, parts: &mut Parts)
    requires idle { parts.old.called ≡ None }
    ensures same { group.new ≡ record group.old {
      aborting = group.new.aborting;
      kept = group.new.kept;
      exit_future = None;
    } }
    ensures moves { Moves parts.old parts.new }
    ensures steps { GroupSteps group.old parts.old group.new parts.new (heard (input.Throw fault)) }
{
    group.wake();
    if group.aborts() {
        return;
    }
    group.keep(fault);
    abort(group, parts);
}

// What wakes the exit is heard.
fn hear(group: &mut Group, input: Input, parts: &mut Parts)
    requires idle { parts.old.called ≡ None }
    ensures same { group.new ≡ record group.old {
      aborting = group.new.aborting;
      kept = group.new.kept;
      exit_future = None;
    } }
    ensures moves { Moves parts.old parts.new }
    ensures steps { GroupSteps group.old parts.old group.new parts.new (heard input) }
{
    match input {
        Input::Send(_value) => group.wake(),
        Input::Throw(fault) => hear_cancel(group, fault, parts),
    }
}

// What is done last, before the exit waits or ends.
fn before_next(next: &ExitStep, group: &mut Group, parts: &mut Parts)
    requires idle { parts.old.called ≡ None }
    ensures same { group.new ≡ record group.old { kept = group.new.kept } }
    ensures moves { Moves parts.old parts.new }
    ensures steps { GroupSteps group.old parts.old group.new parts.new
        (last_step (profile_named parts.old.profile) next.now) }
{
    match next {
        ExitStep::Waits(_future) => {}
        ExitStep::Ends(_fault) => {
            let now = is_taken_back_last(parts);
            take_back(now, group, parts);
        }
    }
}

/// The block ends, by an exception or by none.
pub fn exit_begin(
    alloc: Global,
    raised: Option<Exc>,
    group: &mut Group,
    parts: &mut Parts,
) -> Result<GroupExit, Memory>
    requires idle { parts.old.called ≡ None }
    requires belongs { Belongs parts.old group.old }
    requires fresh { group.old.exiting ≡ false }
    ensures moves { Moves parts.old parts.new }
    ensures belongs { Belongs parts.new group.new }
    ensures steps { IfOk result
        (λ exit. Exits group.old parts.old group.new parts.new (plain.exit_begin raised) exit) }
    ensures err { OnErr result ((group.new ≡ group.old) × (parts.new ≡ parts.old)) }
{
    let next = next(alloc, group, failure_in(&raised), parts)?;
    begin(group, raised, parts);
    before_next(&next, group, parts);
    Ok(group.go_on(next))
}

/// The exit goes on after its wait.
pub fn exit_woken(
    alloc: Global,
    input: Input,
    group: &mut Group,
    parts: &mut Parts,
) -> Result<GroupExit, Memory>
    requires idle { parts.old.called ≡ None }
    requires belongs { Belongs parts.old group.old }
    requires going { (group.old.exiting && not group.old.ended) ≡ true }
    ensures moves { Moves parts.old parts.new }
    ensures belongs { Belongs parts.new group.new }
    ensures steps { IfOk result
        (λ exit. Exits group.old parts.old group.new parts.new (plain.exit_woken input) exit) }
    ensures err { OnErr result ((group.new ≡ group.old) × (parts.new ≡ parts.old)) }
{
    let next = next(alloc, group, group.body(), parts)?;
    hear(group, input, parts);
    before_next(&next, group, parts);
    Ok(group.go_on(next))
}
