//! The lines of events.
ghost use Rattle.std.specs.Prelude.{◌≡◌, ◌++◌, IfOk, OnOk, OnErr};
ghost use Rattle.model_wire.specs.Trace.{line_of, lines_of_events};

use crate::actions::{push_action, push_id, push_text};
use aio_base::Memory;
use aio_wire::{Event, Events};
use aio_written::{push_answer, push_call};
use std::alloc::Global;

/// Appends the lines of events, in order: those that tasks print, and with the trace each call, answer and handle. Want
/// of memory appends nothing.
pub fn lines(alloc: Global, events: &Events, trace: bool, out: &mut Vec<u8>) -> Result<(), Memory>
    ensures ok { OnOk result
        (out.new.items ≡ out.old.items ++ lines_of_events trace events.now.events) }
    ensures err { OnErr result (out.new.items ≡ out.old.items) }
{
    let text = lines_of(alloc, events.items(), trace)?;
    out.extend_from_slice(text.as_slice())?;
    Ok(())
}

fn lines_of(alloc: Global, events: &[Event], trace: bool) -> Result<Vec<u8>, Memory>
    ensures { IfOk result (λ text. text.items ≡ lines_of_events trace events.now) }
{
    let mut text = Vec::new(alloc);
    for event in events {
        push_line(alloc, event, trace, &mut text)?;
    }
    Ok(text)
}

/// Appends the line of an event, where it has one.
fn push_line(alloc: Global, event: &Event, trace: bool, out: &mut Vec<u8>) -> Result<(), Memory>
    ensures { OnOk result (out.new.items ≡ out.old.items ++ line_of trace event.now) }
{
    match event {
        Event::Said { task, text } => {
            push_id(alloc, b"T", *task, out)?;
            push_text(b" ", out)?;
            push_text(text.items(), out)?;
            push_text(b"\n", out)
        }
        _ if !trace => Ok(()),
        Event::Called(call) => {
            push_text(b"> ", out)?;
            push_call(alloc, call, out)?;
            push_text(b"\n", out)
        }
        Event::Got(answer) => {
            push_text(b"< ", out)?;
            push_answer(alloc, answer, out)?;
            push_text(b"\n", out)
        }
        Event::Ran(action) => {
            push_text(b". ", out)?;
            push_action(alloc, action, out)?;
            push_text(b"\n", out)
        }
    }
}
