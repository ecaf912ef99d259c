//! Requests of the time and of printing.
ghost use Rattle.std.specs.Prelude.{◌≡◌, ℕ, ◌++◌, Ok, IfOk, OnOk};
ghost use Rattle.model_value.specs.declared.request.Request.TheVariants as request;
ghost use Rattle.model_machine.specs.Replies.{shown_after, shown_all as shown_of};
ghost use Rattle.aio_body.specs.Asked.{SomeGoes, Serves};
ghost use Rattle.aio_body.specs.Stands.{Possible};

use crate::tasks::number;
use aio_base::{Blob, Memory, Value, ValueList, show};
use aio_body::{RequestReply, RunState};
use aio_extra::Extra;
use aio_wire::Event;
use std::alloc::Global;

/// `time()`, in milliseconds from the run's beginning.
pub fn time_now<X: Extra>(body: &RunState<X>) -> RequestReply
    requires { Possible X.added SomeGoes body.now }
    ensures { (task : ℕ) → Serves X.added task request.Time body.now body.now (Ok result) }
{
    number(body.parts.now())
}

/// `print`: notes what the task says.
pub fn print<X: Extra>(
    body: &mut RunState<X>,
    alloc: Global,
    task: u32,
    values: &ValueList,
) -> Result<RequestReply, Memory>
    ensures { Serves X.added task (request.Print values.now) body.old body.new result }
{
    let text = Blob::of(shown_all(alloc, values.items())?);
    body.events.push(Event::Said { task, text })?;
    Ok(RequestReply::Answers(Value::nothing()))
}

// Values with one space between two.
fn shown_all(alloc: Global, values: &[Value]) -> Result<Vec<u8>, Memory>
    ensures { IfOk result (λ text. text.items ≡ shown_of values.now) }
{
    let mut text = Vec::new(alloc);
    if let [first, others @ ..] = values {
        show(alloc, first, &mut text)?;
        show_after(alloc, others, &mut text)?;
    }
    Ok(text)
}

// Values, each with a space before it.
fn show_after(alloc: Global, values: &[Value], text: &mut Vec<u8>) -> Result<(), Memory>
    ensures { OnOk result (text.new.items ≡ text.old.items ++ shown_after values.now) }
{
    for value in values {
        text.push(b' ')?;
        show(alloc, value, text)?;
    }
    Ok(())
}
