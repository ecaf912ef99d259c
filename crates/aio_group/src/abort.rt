//! A group cancels its tasks and its parent.
ghost use Rattle.std.specs.Prelude.{◌≡◌, true, None};
ghost use Rattle.model_loop.specs.Parts.{Parts as PlainParts};
ghost use Rattle.model_loop.specs.Groups as plain;
ghost use Rattle.model_loop.specs.Ledger.{Origin, request_each};
ghost use Rattle.aio_task.specs.Keeps.{NameMap, Keeps, Kept};
ghost use Rattle.aio_group.specs.GoesOn.{Moves};
ghost use Rattle.aio_group.specs.Stands.{GroupSteps};

use crate::group::Group;
use aio_task::Parts;
use std::collections::BTreeSet;

// One request for each of these tasks, in order. One that is done stays as it is.
fn cancel_each(tasks: &BTreeSet<u32>, parts: &mut Parts)
    requires idle { parts.old.called ≡ None }
    ensures moves { Moves parts.old parts.new }
    ensures kept { (t : NameMap) (p : PlainParts) (by : Origin) → Keeps t parts.old p
        → Kept t p parts.new (request_each by tasks.now.keys p).parts }
{
    for task in tasks.iter() {
        let future = parts.future_of(*task);
        let _heard = parts.cancel(future);
    }
}

/// The group cancels each of its tasks that lives, in order of creation.
pub fn abort(group: &mut Group, parts: &mut Parts)
    requires idle { parts.old.called ≡ None }
    ensures same { group.new ≡ record group.old { aborting = true } }
    ensures moves { Moves parts.old parts.new }
    ensures steps { GroupSteps group.old parts.old group.new parts.new plain.abort }
{
    group.set_aborting();
    cancel_each(group.children(), parts);
}

/// The parent's cancel is asked for.
pub fn request_parent(group: &mut Group, parts: &mut Parts)
    requires idle { parts.old.called ≡ None }
    ensures same { group.new ≡ record group.old { requested = true } }
    ensures moves { Moves parts.old parts.new }
    ensures steps { GroupSteps group.old parts.old group.new parts.new plain.request_parent }
{
    group.set_requested();
    let future = parts.future_of(group.parent());
    let _heard = parts.cancel(future);
}
