//! Recording a run: the answers of its events, appended to a file of a shelf.
#![tactic(auto)]

ghost use Rattle.std.specs.Prelude.{◌≡◌, ◌++◌, OnOk, IfOk, IfErr};
ghost use Rattle.model_commands.specs.Recorded.{Grew, entry_line, recorded};
ghost use Rattle.aio_record.specs.Recording.{StopsAppending};

use aio_base::Memory;
use aio_wire::{Event, Events, Shelf, SinkTook};
use aio_written::push_answer;
use std::alloc::Global;

/// Why events were not recorded.
#[derive(Clone, Copy, PartialEq, Eq)]
pub enum Unrecorded {
    /// Memory was refused.
    Memory,
    /// The file failed.
    File,
}

/// Appends the answers of events to the file of this name, a line each, whether they fit their
/// calls or not. Where it stops before, the file has a front of them.
pub fn record<F: Shelf>(
    alloc: Global,
    events: &Events,
    name: &str,
    shelf: &mut F,
) -> Result<(), Unrecorded>
    ensures ok { OnOk result
        (Grew name.now (recorded events.now.events) (F.seen shelf.old) (F.seen shelf.new)) }
    ensures err { IfErr result (StopsAppending name.now (recorded events.now.events)
        (F.seen shelf.old) (F.seen shelf.new)) }
{
    match entries_of(alloc, events.items()) {
        Ok(entries) => append_all(alloc, shelf, name, entries.as_slice()),
        Err(_) => Err(Unrecorded::Memory),
    }
}

/// The answers of events as they are written, a line each.
fn entries_of(alloc: Global, events: &[Event]) -> Result<Vec<u8>, Memory>
    ensures { IfOk result (λ text. text.items ≡ recorded events.now) }
{
    let mut text = Vec::new(alloc);
    for event in events {
        push_entry(alloc, event, &mut text)?;
    }
    Ok(text)
}

/// Appends an event's answer, where it is one, and a newline.
fn push_entry(alloc: Global, event: &Event, out: &mut Vec<u8>) -> Result<(), Memory>
    ensures { OnOk result (out.new.items ≡ out.old.items ++ entry_line event.now) }
{
    match event {
        Event::Got(answer) => {
            push_answer(alloc, answer, out)?;
            out.push(b'\n')?;
            Ok(())
        }
        Event::Called(_) => Ok(()),
        Event::Ran(_) => Ok(()),
        Event::Said { .. } => Ok(()),
    }
}

/// Hands all of a text to a file's end. Where it stops before, the file has a front of it.
fn append_all<F: Shelf>(
    alloc: Global,
    shelf: &mut F,
    name: &str,
    text: &[u8],
) -> Result<(), Unrecorded>
    ensures ok { OnOk result (Grew name.now text.now (F.seen shelf.old) (F.seen shelf.new)) }
    ensures err { IfErr result
        (StopsAppending name.now text.now (F.seen shelf.old) (F.seen shelf.new)) }
{
    let mut rest = text;
    while !rest.is_empty() {
        match shelf.append(alloc, name, rest) {
            Ok(SinkTook::Took(count)) => rest = &rest[count..],
            Ok(SinkTook::Failed) => return Err(Unrecorded::File),
            Err(_) => return Err(Unrecorded::Memory),
        }
    }
    Ok(())
}
