//! What a code and its list ask for.
ghost use Rattle.std.specs.Prelude.{◌≡◌, IfOk};
ghost use Rattle.std.specs.Option.{option_map};
ghost use Rattle.std.specs.Rc.{rc_slice_items};
ghost use Rattle.model_machine.specs.Arguments.{as_bytes as plain_as_bytes, as_int as plain_as_int};
ghost use Rattle.model_dgram.specs.Serving as plain;
ghost use Rattle.aio_dgram.specs.Wants.{number_in as plain_number_in, shape_of as plain_shape_of, shaped as plain_shaped, wanted_as};

use aio_base::{Memory, Value, ValueCase};
use std::rc::RcSlice;

/// A request with its list.
#[derive(Drop)]
pub enum Wanted {
    Open(i64),
    SendTo(i64, i64, RcSlice<u8>),
    Receive(i64),
    Close(i64),
}

/// A request, but for its list.
#[derive(Clone, Copy)]
pub enum Shape {
    Open,
    SendTo,
    Receive,
    Close,
}

fn as_int(value: &Value) -> Option<i64>
    ensures { result ≡ plain_as_int value.now }
{
    match value.case() {
        ValueCase::Int(number) => Some(number),
        _ => None,
    }
}

// The number, where the list is a number alone.
fn number_in(items: &[Value]) -> Option<i64>
    ensures { result ≡ plain_number_in items.now }
{
    match items {
        [value] => as_int(value),
        _ => None,
    }
}

fn as_bytes(value: &Value) -> Option<&RcSlice<u8>>
    ensures { option_map (λ bytes. rc_slice_items bytes.now) result ≡ plain_as_bytes value.now }
{
    match value.case() {
        ValueCase::Bytes(bytes) => Some(bytes),
        _ => None,
    }
}

fn send_to(endpoint: i64, port: i64, bytes: &Value) -> Result<Option<Wanted>, Memory>
    ensures { IfOk result (λ wanted. option_map wanted_as wanted
        ≡ option_map (plain.SendTo endpoint port) (plain_as_bytes bytes.now)) }
{
    match as_bytes(bytes) {
        Some(bytes) => Ok(Some(Wanted::SendTo(endpoint, port, bytes.clone()?))),
        None => Ok(None),
    }
}

fn sending_in(items: &[Value]) -> Result<Option<Wanted>, Memory>
    ensures { IfOk result (λ wanted. option_map wanted_as wanted ≡ plain.three items.now) }
{
    match items {
        [endpoint, port, bytes] => match (as_int(endpoint), as_int(port)) {
            (Some(endpoint), Some(port)) => send_to(endpoint, port, bytes),
            (Some(_), None) => Ok(None),
            (None, _) => Ok(None),
        },
        _ => Ok(None),
    }
}

/// What a code asks for; none where it isn't known.
pub fn shape_of(code: i64) -> Option<Shape>
    ensures { result ≡ plain_shape_of code }
{
    match code {
        400 => Some(Shape::Open),
        401 => Some(Shape::SendTo),
        402 => Some(Shape::Receive),
        403 => Some(Shape::Close),
        _ => None,
    }
}

/// The request with its list, where that has its shape.
pub fn shaped(shape: Shape, items: &[Value]) -> Result<Option<Wanted>, Memory>
    ensures { IfOk result (λ wanted. option_map wanted_as wanted ≡ plain_shaped shape items.now) }
{
    match shape {
        Shape::Open => Ok(match number_in(items) {
            Some(port) => Some(Wanted::Open(port)),
            None => None,
        }),
        Shape::SendTo => sending_in(items),
        Shape::Receive => Ok(match number_in(items) {
            Some(number) => Some(Wanted::Receive(number)),
            None => None,
        }),
        Shape::Close => Ok(match number_in(items) {
            Some(number) => Some(Wanted::Close(number)),
            None => None,
        }),
    }
}
