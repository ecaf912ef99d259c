//! What a code and its list ask for.
ghost use Rattle.std.specs.Prelude.{◌≡◌, List, IfOk};
ghost use Rattle.std.specs.Option.{option_map};
ghost use Rattle.model_machine.specs.Arguments.{as_int as plain_as_int};
ghost use Rattle.aio_sync.specs.Wants.{number_in as plain_number_in, shape_of as plain_shape_of, shaped as plain_shaped, two_in as plain_two_in, wanted_as};

use aio_base::{Memory, Value, ValueCase};

/// A request whose list is a number alone: that of its lock, event or queue, or a queue's size.
#[derive(Clone, Copy)]
pub enum Numbered {
    Acquire,
    Release,
    IsLocked,
    Set,
    Clear,
    IsSet,
    Wait,
    MakesQueue,
    Get,
    Size,
}

/// A request, but for its list.
#[derive(Clone, Copy)]
pub enum Shape {
    MakesLock,
    MakesEvent,
    Put,
    Of(Numbered),
}

/// A request with its list.
#[derive(Drop)]
pub enum Wanted {
    MakesLock,
    MakesEvent,
    Put(i64, Value),
    Of(Numbered, i64),
}

/// What a code asks for; none where it isn't known.
pub fn shape_of(code: i64) -> Option<Shape>
    ensures { result ≡ plain_shape_of code }
{
    match code {
        200 => Some(Shape::MakesLock),
        201 => Some(Shape::Of(Numbered::Acquire)),
        202 => Some(Shape::Of(Numbered::Release)),
        203 => Some(Shape::Of(Numbered::IsLocked)),
        210 => Some(Shape::MakesEvent),
        211 => Some(Shape::Of(Numbered::Set)),
        212 => Some(Shape::Of(Numbered::Clear)),
        213 => Some(Shape::Of(Numbered::IsSet)),
        214 => Some(Shape::Of(Numbered::Wait)),
        220 => Some(Shape::Of(Numbered::MakesQueue)),
        221 => Some(Shape::Put),
        222 => Some(Shape::Of(Numbered::Get)),
        225 => Some(Shape::Of(Numbered::Size)),
        _ => None,
    }
}

fn as_int(value: &Value) -> Option<i64>
    ensures { result ≡ plain_as_int value.now }
{
    match value.case() {
        ValueCase::Int(number) => Some(number),
        _ => None,
    }
}

// The number, where the list is a number alone.
fn number_in(items: &[Value]) -> Option<i64>
    ensures { result ≡ plain_number_in items.now }
{
    match items {
        [value] => as_int(value),
        _ => None,
    }
}

// The number and the value, where the list is these.
fn two_in(items: &[Value]) -> Result<Option<(i64, Value)>, Memory>
    ensures { IfOk result (λ both. both ≡ plain_two_in items.now) }
{
    match items {
        [number, value] => match as_int(number) {
            Some(number) => Ok(Some((number, value.clone()?))),
            None => Ok(None),
        },
        _ => Ok(None),
    }
}

/// The request with its list, where that has its shape.
pub fn shaped(shape: Shape, items: &[Value]) -> Result<Option<Wanted>, Memory>
    ensures { IfOk result (λ wanted. option_map wanted_as wanted ≡ plain_shaped shape items.now) }
{
    match shape {
        Shape::MakesLock => Ok(if items.is_empty() {
            Some(Wanted::MakesLock)
        } else {
            None
        }),
        Shape::MakesEvent => Ok(if items.is_empty() {
            Some(Wanted::MakesEvent)
        } else {
            None
        }),
        Shape::Put => match two_in(items)? {
            Some((number, value)) => Ok(Some(Wanted::Put(number, value))),
            None => Ok(None),
        },
        Shape::Of(numbered) => match number_in(items) {
            Some(number) => Ok(Some(Wanted::Of(numbered, number))),
            None => Ok(None),
        },
    }
}
