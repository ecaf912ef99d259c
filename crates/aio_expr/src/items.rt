//! Lists, and the items of lists and of bytes.
ghost use Rattle.std.specs.Prelude.{◌≡◌, ◌++◌, map};
ghost use Rattle.model_value.specs.Value.{Items, values};
ghost use Rattle.model_says.specs.Operations.{bounded, indexed, found, item_at, byte_value};
ghost use Rattle.aio_expr.specs.Places.{place_of};
ghost use Rattle.aio_expr.specs.Gives.{Gives};

use crate::bounds::{DEEPEST, HEAVIEST, bounded};
use crate::operation_fault::OperationFault;
use aio_base::{Value, ValueCase, ValueList};
use std::alloc::Global;

/// A list of these values.
#[inline(never)]
pub fn list_of(alloc: Global, items: Vec<Value>) -> Result<Value, OperationFault>
    ensures { Gives (bounded (Items (values items.items))) result }
{
    bounded(Value::list_from(alloc, items)?)
}

/// The items of both lists in order. They are weighed before the list is made.
pub fn joined_lists(
    alloc: Global,
    front: &ValueList,
    back: &ValueList,
) -> Result<Value, OperationFault>
    ensures { Gives (bounded (Items (values (front.now ++ back.now)))) result }
{
    if front.weight().saturating_add(back.weight()) >= HEAVIEST {
        return Err(OperationFault::OutOfRange);
    }
    if front.depth().max(back.depth()) >= DEEPEST {
        return Err(OperationFault::OutOfRange);
    }
    Ok(Value::list_joined(alloc, front, back)?)
}

/// `x[i]`.
#[inline(never)]
#[tactic(auto, using(law_value::proofs::Rows::rows))]
pub fn indexed(sequence: &Value, index: &Value) -> Result<Value, OperationFault>
    ensures { Gives (indexed sequence.now index.now) result }
{
    match (sequence.case(), index.case()) {
        (ValueCase::List(list), ValueCase::Int(index)) => item_at(list.as_ref().items(), index),
        (ValueCase::Bytes(bytes), ValueCase::Int(index)) => byte_at(bytes.as_slice(), index),
        _ => Err(OperationFault::BadOperand),
    }
}

fn item_at(items: &[Value], index: i64) -> Result<Value, OperationFault>
    ensures { Gives (found (item_at items.now index)) result }
{
    match place_of(items.len(), index) {
        Some(place) => bounded(items[place].clone()?),
        None => Err(OperationFault::IndexOutOfRange),
    }
}

fn byte_at(bytes: &[u8], index: i64) -> Result<Value, OperationFault>
    ensures { Gives (found (item_at (map byte_value bytes.now) index)) result }
{
    match place_of(bytes.len(), index) {
        Some(place) => Ok(Value::int(i64::from(bytes[place]))),
        None => Err(OperationFault::IndexOutOfRange),
    }
}

/// The place of an index in a sequence of this length. A negative index counts from the end.
fn place_of(len: usize, index: i64) -> Option<usize>
    ensures { result ≡ place_of len index }
{
    if index >= 0 {
        let place = index as usize;
        if place < len { Some(place) } else { None }
    } else {
        len.checked_sub(index.unsigned_abs() as usize)
    }
}
