//! What the arguments of requests name, where they are of the kind that is wanted.
ghost use Rattle.std.specs.Prelude.{◌≡◌, IfOk, is_some};
ghost use Rattle.std.specs.List.{list_all};
ghost use Rattle.model_machine.specs.Arguments.{as_task as task_of, as_timeout as timeout_of, as_group as group_of, as_int as int_of};
ghost use Rattle.model_machine.specs.Arguments.{as_failure as failure_of, as_list, as_words};
ghost use Rattle.model_value.specs.Value.{Exception, Items, values};
ghost use Rattle.aio_task.specs.View.{parts};
ghost use Rattle.aio_body.specs.Named.{future_in, awaited_in};
ghost use Rattle.aio_body.specs.Words.{is_text};

use crate::run_state::RunState;
use aio_base::{Exc, Kind, Memory, Value, ValueCase, kind_matches};
use aio_task::FutureId;

impl<X> RunState<X> {
    /// A future of `future()`.
    pub fn as_future(&self, value: &Value) -> Option<FutureId>
        ensures { result ≡ future_in self.now.futures.items value.now }
    {
        match value.case() {
            ValueCase::Fut(id) => self.futures.get(id as usize).copied(),
            _ => None,
        }
    }

    /// Such a future, or a task's own.
    pub fn as_awaited(&self, value: &Value) -> Option<FutureId>
        ensures { result ≡ awaited_in self.now.futures.items (parts self.now.parts) value.now }
    {
        match value.case() {
            ValueCase::Fut(id) => self.futures.get(id as usize).copied(),
            ValueCase::Task(id) => Some(self.parts.future_of(id)),
            _ => None,
        }
    }
}

/// The number of a task; None for any other kind.
pub fn as_task(value: &Value) -> Option<u32>
    ensures { result ≡ task_of value.now }
{
    match value.case() {
        ValueCase::Task(id) => Some(id),
        _ => None,
    }
}

/// The number of a timeout; None for any other kind.
pub fn as_timeout(value: &Value) -> Option<u32>
    ensures { result ≡ timeout_of value.now }
{
    match value.case() {
        ValueCase::Timeout(id) => Some(id),
        _ => None,
    }
}

/// The number of a group; None for any other kind.
pub fn as_group(value: &Value) -> Option<u32>
    ensures { result ≡ group_of value.now }
{
    match value.case() {
        ValueCase::Group(id) => Some(id),
        _ => None,
    }
}

/// The number that an Int is; None for any other kind.
pub fn as_int(value: &Value) -> Option<i64>
    ensures { result ≡ int_of value.now }
{
    match value.case() {
        ValueCase::Int(number) => Some(number),
        _ => None,
    }
}

/// An exception that a future may fail with: not CancelledError, by which it would be cancelled.
pub fn as_failure(value: &Value) -> Result<Option<Exc>, Memory>
    ensures { IfOk result (λ fault. fault ≡ failure_of value.now) }
{
    match value.case() {
        ValueCase::Exc(fault) => failing_with(fault),
        _ => Ok(None),
    }
}

fn failing_with(fault: &Exc) -> Result<Option<Exc>, Memory>
    ensures { IfOk result (λ it. it ≡ failure_of (Exception fault.now)) }
{
    if kind_matches(Kind::CancelledError, fault) {
        return Ok(None);
    }
    Ok(Some(fault.clone()?))
}

/// Whether a value is a List.
pub fn is_list(value: &Value) -> bool
    ensures { result ≡ is_some (as_list value.now) }
{
    matches!(value.case(), ValueCase::List(_))
}

/// A program and its arguments: a list of texts that isn't empty.
pub fn is_program(value: &Value) -> bool
    ensures { result ≡ is_some (as_words value.now) }
{
    match value.case() {
        ValueCase::List(words) => are_words(words.items()),
        _ => false,
    }
}

fn are_words(items: &[Value]) -> bool
    ensures { result ≡ is_some (as_words (Items (values items.now))) }
{
    !items.is_empty() && are_texts(items)
}

fn are_texts(items: &[Value]) -> bool
    ensures { result ≡ list_all is_text items.now }
{
    items.iter().all(|item| is_text(item))
}

fn is_text(value: &Value) -> bool
    ensures { result ≡ is_text value.now }
{
    matches!(value.case(), ValueCase::Text(_))
}
