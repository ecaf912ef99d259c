//! Copies of what handles run, which stand in the events besides where they run.
ghost use Rattle.std.specs.Prelude.{◌≡◌, IfOk};

use aio_base::{Action, Memory};
use aio_wire::{copy_of_bytes, copy_of_news};
use std::alloc::Global;

/// A copy of what a handle runs. Bytes alone take memory.
pub fn copy_of_action(alloc: Global, action: &Action) -> Result<Action, Memory>
    ensures { IfOk result (λ copy. copy ≡ action.now) }
{
    match action {
        &Action::Step(task) => Ok(Action::Step(task)),
        &Action::StepInCycle { task, cycle } => Ok(Action::StepInCycle { task, cycle }),
        &Action::Wakeup(task) => Ok(Action::Wakeup(task)),
        &Action::SleepDone { task, future } => Ok(Action::SleepDone { task, future }),
        &Action::GroupDone { group, task } => Ok(Action::GroupDone { group, task }),
        &Action::Fires(timeout) => Ok(Action::Fires(timeout)),
        &Action::MainDone => Ok(Action::MainDone),
        &Action::Made(conn) => Ok(Action::Made(conn)),
        &Action::StartRead(conn) => Ok(Action::StartRead(conn)),
        &Action::Lost { conn, broken } => Ok(Action::Lost { conn, broken }),
        &Action::HandlerDone { conn, task } => Ok(Action::HandlerDone { conn, task }),
        &Action::ReadableServer(server) => Ok(Action::ReadableServer(server)),
        &Action::Readable(conn) => Ok(Action::Readable(conn)),
        &Action::Writable(conn) => Ok(Action::Writable(conn)),
        &Action::Up(conn) => Ok(Action::Up(conn)),
        &Action::Down(conn) => Ok(Action::Down(conn)),
        &Action::WritableChild(child) => Ok(Action::WritableChild(child)),
        Action::ChildItem { child, item } => Ok(Action::ChildItem {
            child: *child,
            item: copy_of_news(alloc, item)?,
        }),
        &Action::LostChild { child, broken } => Ok(Action::LostChild { child, broken }),
        Action::ExtraItem { code, bytes } => Ok(Action::ExtraItem {
            code: *code,
            bytes: copy_of_bytes(alloc, bytes)?,
        }),
        &Action::Extra(key) => Ok(Action::Extra(key)),
    }
}
