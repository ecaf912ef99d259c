//! The callbacks of what came from the outside.
ghost use Rattle.std.specs.Prelude.{◌≡◌, ◌∷◌, [], false, None, OnOk};
ghost use Rattle.std.specs.List.{flat_map};
ghost use Rattle.model_machine.specs.Outside.{actions_of, news_of, ready_actions};
ghost use Rattle.aio_task.specs.View.{is_step};
ghost use Rattle.aio_core.specs.News.{Appends};

use aio_base::{Action, Memory};
use aio_task::Parts;
use aio_wire::{Answer, Item, Readiness, copy_of_bytes, copy_of_news};
use std::alloc::Global;

/// What came appends its callbacks, item by item.
pub fn note_news(parts: &mut Parts, alloc: Global, answer: &Answer) -> Result<(), Memory>
    requires idle { parts.old.called ≡ None }
    ensures { OnOk result (Appends (news_of answer.now) parts.old parts.new) }
{
    match answer {
        Answer::Turn { now: _, items } => note_items(parts, alloc, items.items()),
        _ => Ok(()),
    }
}

fn note_items(parts: &mut Parts, alloc: Global, items: &[Item]) -> Result<(), Memory>
    requires idle { parts.old.called ≡ None }
    ensures { OnOk result (Appends (flat_map actions_of items.now) parts.old parts.new) }
{
    for item in items {
        note_item(parts, alloc, item)?;
    }
    Ok(())
}

fn note_item(parts: &mut Parts, alloc: Global, item: &Item) -> Result<(), Memory>
    requires idle { parts.old.called ≡ None }
    ensures { OnOk result (Appends (actions_of item.now) parts.old parts.new) }
{
    match item {
        &Item::ReadableServer(server) => soon(parts, alloc, Action::ReadableServer(server)),
        &Item::Ready { conn, ready } => note_ready(parts, alloc, conn, ready),
        &Item::Up(conn) => soon(parts, alloc, Action::Up(conn)),
        &Item::Down(conn) => soon(parts, alloc, Action::Down(conn)),
        &Item::WritableChild(child) => soon(parts, alloc, Action::WritableChild(child)),
        Item::Child { child, item } => {
            let item = copy_of_news(alloc, item)?;
            soon(
                parts,
                alloc,
                Action::ChildItem {
                    child: *child,
                    item,
                },
            )
        }
        Item::Extra { code, bytes } => {
            let bytes = copy_of_bytes(alloc, bytes)?;
            soon(parts, alloc, Action::ExtraItem { code: *code, bytes })
        }
    }
}

// Reading stands before writing.
fn note_ready(parts: &mut Parts, alloc: Global, conn: u32, ready: Readiness) -> Result<(), Memory>
    requires idle { parts.old.called ≡ None }
    ensures { OnOk result (Appends (ready_actions conn ready) parts.old parts.new) }
{
    match ready {
        Readiness::Read => soon(parts, alloc, Action::Readable(conn)),
        Readiness::Write => soon(parts, alloc, Action::Writable(conn)),
        Readiness::Both => {
            soon(parts, alloc, Action::Readable(conn))?;
            soon(parts, alloc, Action::Writable(conn))
        }
    }
}

fn soon(parts: &mut Parts, alloc: Global, action: Action) -> Result<(), Memory>
    requires idle { parts.old.called ≡ None }
    requires no_step { is_step action ≡ false }
    ensures { OnOk result (Appends (action ∷ []) parts.old parts.new) }
{
    match parts.ticket(alloc) {
        Ok(ticket) => {
            let _handle = parts.soon(ticket, action);
            Ok(())
        }
        Err(Memory) => {
            forget_action(action);
            Err(Memory)
        }
    }
}

// A callback for which there was no memory.
fn forget_action(_action: Action) {}
