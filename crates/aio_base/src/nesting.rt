//! How deep values nest.
ghost use Rattle.std.specs.Prelude.{◌≡◌, ◌-◌, ◌^◌, min};
ghost use Rattle.model_value.specs.Value.{values, excs};
ghost use Rattle.model_value.specs.Depth.{depth_of, items_depth, exc_depth, members_depth};

use crate::exc::Exc;
use crate::value::{Value, ValueCase};

/// The value's depth, or 18,446,744,073,709,551,615 where it is more.
pub fn depth(value: &Value) -> u64
    ensures { result ≡ min (depth_of value.now) (2 ^ 64 - 1) }
{
    match value.case() {
        ValueCase::List(list) => list.as_ref().depth().saturating_add(1),
        ValueCase::Exc(exc) => depth_of_exc(exc),
        _ => 0,
    }
}

/// The depth of the deepest value, up to the same number.
pub(crate) fn depth_of_all(items: &[Value]) -> u64
    ensures { result ≡ min (items_depth (values items.now)) (2 ^ 64 - 1) }
{
    let mut deepest = 0u64;
    for item in items {
        deepest = deepest.max(depth(item));
    }
    deepest
}

/// The depth of an exception, or 18,446,744,073,709,551,615 where it is more.
pub fn depth_of_exc(exc: &Exc) -> u64
    ensures { result ≡ min (exc_depth exc.now) (2 ^ 64 - 1) }
{
    exc.members_depth().saturating_add(1)
}

/// The depth of the deepest exception, up to the same number.
pub(crate) fn depth_of_members(members: &[Exc]) -> u64
    ensures { result ≡ min (members_depth (excs members.now)) (2 ^ 64 - 1) }
{
    let mut deepest = 0u64;
    for member in members {
        deepest = deepest.max(depth_of_exc(member));
    }
    deepest
}
