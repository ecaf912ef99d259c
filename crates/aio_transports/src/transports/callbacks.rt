//! What a callback does.
ghost use Rattle.std.specs.Prelude.{◌≡◌, None, OnOk, length};
ghost use Rattle.model_stream.specs.Streams as plain;
ghost use Rattle.aio_exchange.specs.Follows.{reach};
ghost use Rattle.aio_transports.specs.Owned.{OwnsTransports};
ghost use Rattle.aio_transports.specs.Standing.{Comes};

use super::Transports;
use aio_base::Action;
use aio_listener::act;
use aio_task::Parts;
use aio_wire::{Port, Stop, Wire};
use std::alloc::Global;

impl Transports {
    /// What a callback of a listener, a connection or a child does. Of a handler that is done,
    /// `returned` says that it neither failed nor was cancelled. `made` starts a handler, which is
    /// the kernel's, so that it does nothing here, as what is the loop's own.
    pub fn act<W: Wire>(
        &mut self,
        alloc: Global,
        action: &Action,
        returned: bool,
        port: &mut Port<W>,
        parts: &mut Parts,
    ) -> Result<(), Stop>
        requires idle { parts.old.called ≡ None }
        requires own { OwnsTransports parts.old self.old }
        ensures wire_name { port.new.wire.ghost_name ≡ port.old.wire.ghost_name }
        ensures events_name { port.new.events.ghost_name ≡ port.old.events.ghost_name }
        ensures comes { Comes W.outside (plain.act (length parts.old.futures) returned action.now)
            self.old self.new
            (reach parts.old port.old.wire.now port.old.events.now)
            (reach parts.new port.new.wire.now port.new.events.now)
            result }
        ensures own { OnOk result (OwnsTransports parts.new self.new) }
        ensures idle { parts.new.called ≡ None }
    {
        match action {
            Action::WritableChild(id) => self.children.writable(alloc, *id, port, parts),
            Action::ChildItem { child, item } => {
                Ok(self.children.tell(alloc, *child, item, parts)?)
            }
            Action::LostChild { child, broken } => {
                self.children.lose(alloc, *child, *broken, port, parts)
            }
            Action::ReadableServer(_)
            | Action::StartRead(_)
            | Action::Readable(_)
            | Action::Writable(_)
            | Action::Up(_)
            | Action::Down(_)
            | Action::Lost { conn: _, broken: _ }
            | Action::HandlerDone { conn: _, task: _ }
            | Action::Made(_)
            | Action::Step(_)
            | Action::StepInCycle { task: _, cycle: _ }
            | Action::Wakeup(_)
            | Action::SleepDone { task: _, future: _ }
            | Action::GroupDone { group: _, task: _ }
            | Action::Fires(_)
            | Action::MainDone
            | Action::ExtraItem { code: _, bytes: _ }
            | Action::Extra(_) => act(&mut self.streams, alloc, action, returned, port, parts),
        }
    }
}
