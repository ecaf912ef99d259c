//! The functions that expressions call.
ghost use Rattle.std.specs.Prelude.{map, pos};
ghost use Rattle.model_value.specs.Value.{Text, Bytes, Items, Exception, values, members_of};
ghost use Rattle.model_value.specs.Shown.{shown};
ghost use Rattle.model_says.specs.Operations.{applied, bounded, decoded, error_made, number};
ghost use Rattle.aio_expr.specs.Gives.{Gives};

use crate::bounds::bounded;
use crate::items::list_of;
use crate::operation_fault::OperationFault;
use aio_base::{Exc, Kind, Value, ValueCase, exception, name_of, show};
use aio_syntax::Function;
use std::alloc::Global;
use std::str;

/// What a function gives for its argument.
#[inline(never)]
#[tactic(auto, using(law_value::proofs::Rows::rows))]
pub fn applied(alloc: Global, function: Function, argument: &Value) -> Result<Value, OperationFault>
    ensures { Gives (applied function argument.now) result }
{
    match (function, argument.case()) {
        (Function::Len, ValueCase::Text(text)) => number_of(text.len()),
        (Function::Len, ValueCase::Bytes(bytes)) => number_of(bytes.len()),
        (Function::Len, ValueCase::List(list)) => number_of(list.as_ref().items().len()),
        (Function::Str, _) => shown(alloc, argument),
        (Function::Bytes, ValueCase::Text(text)) => bytes_value(alloc, text.as_str().as_bytes()),
        (Function::Text, ValueCase::Bytes(bytes)) => decoded(alloc, bytes.as_slice()),
        (Function::Kind, ValueCase::Exc(exc)) => text_value(alloc, name_of(exc.kind())),
        (Function::Message, ValueCase::Exc(exc)) => text_value(alloc, exc.text()),
        (Function::Partial, ValueCase::Exc(exc)) => bytes_value(alloc, exc.bytes()),
        (Function::Members, ValueCase::Exc(exc)) => members_of(alloc, exc),
        _ => Err(OperationFault::BadOperand),
    }
}

fn number_of(len: usize) -> Result<Value, OperationFault>
    ensures { Gives (number (pos len)) result }
{
    match i64::try_from(len) {
        Ok(number) => Ok(Value::int(number)),
        Err(_) => Err(OperationFault::OutOfRange),
    }
}

fn text_value(alloc: Global, text: &str) -> Result<Value, OperationFault>
    ensures { Gives (bounded (Text text.now)) result }
{
    bounded(Value::text_from(alloc, text)?)
}

fn bytes_value(alloc: Global, bytes: &[u8]) -> Result<Value, OperationFault>
    ensures { Gives (bounded (Bytes bytes.now)) result }
{
    bounded(Value::bytes_from(alloc, bytes)?)
}

/// The text that bytes are.
fn decoded(alloc: Global, bytes: &[u8]) -> Result<Value, OperationFault>
    ensures { Gives (decoded bytes.now) result }
{
    match str::from_utf8(bytes) {
        Ok(text) => text_value(alloc, text),
        Err(_) => Err(OperationFault::NotUtf8),
    }
}

fn shown(alloc: Global, value: &Value) -> Result<Value, OperationFault>
    ensures { Gives (decoded (shown value.now)) result }
{
    let mut text = Vec::new(alloc);
    show(alloc, value, &mut text)?;
    decoded(alloc, text.as_slice())
}

fn members_of(alloc: Global, exc: &Exc) -> Result<Value, OperationFault>
    ensures { Gives (bounded (Items (values (map Exception (members_of exc.now))))) result }
{
    let mut members = Vec::new(alloc);
    for member in exc.members() {
        members.push(Value::exc(member.clone()?))?;
    }
    list_of(alloc, members)
}

/// `error(KIND, t)`.
#[inline(never)]
pub fn error_made(alloc: Global, kind: Kind, message: &Value) -> Result<Value, OperationFault>
    ensures { Gives (error_made kind message.now) result }
{
    match message.case() {
        ValueCase::Text(text) => bounded(Value::exc(exception(alloc, kind, text.as_str())?)),
        _ => Err(OperationFault::BadOperand),
    }
}
