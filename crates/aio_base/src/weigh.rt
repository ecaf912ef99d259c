//! How much values weigh.
ghost use Rattle.std.specs.Prelude.{◌≡◌, ◌-◌, ◌^◌, min};
ghost use Rattle.model_value.specs.Value.{values, excs};
ghost use Rattle.model_value.specs.Weight.{weight_of, items_weight, exc_weight, members_weight};

use crate::exc::Exc;
use crate::value::{Value, ValueCase};

/// The value's weight, or 18,446,744,073,709,551,615 where it is more. Lists know theirs.
pub fn weight(value: &Value) -> u64
    ensures { result ≡ min (weight_of value.now) (2 ^ 64 - 1) }
{
    match value.case() {
        ValueCase::Text(text) => (text.len() as u64).saturating_add(1),
        ValueCase::Bytes(bytes) => (bytes.len() as u64).saturating_add(1),
        ValueCase::List(list) => list.as_ref().weight().saturating_add(1),
        ValueCase::Exc(exc) => weight_of_exc(exc),
        _ => 1,
    }
}

/// What values weigh together, up to the same number.
pub(crate) fn weight_of_all(items: &[Value]) -> u64
    ensures { result ≡ min (items_weight (values items.now)) (2 ^ 64 - 1) }
{
    let mut total = 0u64;
    for item in items {
        total = total.saturating_add(weight(item));
    }
    total
}

/// The weight of an exception, or 18,446,744,073,709,551,615 where it is more.
pub fn weight_of_exc(exc: &Exc) -> u64
    ensures { result ≡ min (exc_weight exc.now) (2 ^ 64 - 1) }
{
    exc.members_weight()
        .saturating_add(exc.text().len() as u64)
        .saturating_add(exc.bytes().len() as u64)
        .saturating_add(1)
}

/// What exceptions weigh together, up to the same number.
pub(crate) fn weight_of_members(members: &[Exc]) -> u64
    ensures { result ≡ min (members_weight (excs members.now)) (2 ^ 64 - 1) }
{
    let mut total = 0u64;
    for member in members {
        total = total.saturating_add(weight_of_exc(member));
    }
    total
}
