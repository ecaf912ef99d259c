//! What a callback of a listener or of a connection does.
ghost use Rattle.std.specs.Prelude.{◌≡◌, false, None, OnOk, length};
ghost use Rattle.model_stream.specs.Streams as plain;
ghost use Rattle.aio_exchange.specs.Follows.{reach};
ghost use Rattle.aio_listener.specs.Acts.{is_of_child};
ghost use Rattle.aio_stream.specs.Owned.{OwnsStreams};
ghost use Rattle.aio_stream.specs.Standing.{Comes};

use crate::accepting::readable_server;
use aio_base::Action;
use aio_stream::Streams;
use aio_task::Parts;
use aio_wire::{Port, Stop, Wire};
use std::alloc::Global;

/// What a callback does that is no child's. Of a handler that is done, `returned` says that it
/// neither failed nor was cancelled. `made` starts a handler, which is the kernel's, so that it
/// does nothing here, as what is the loop's own.
pub fn act<W: Wire>(
    streams: &mut Streams,
    alloc: Global,
    action: &Action,
    returned: bool,
    port: &mut Port<W>,
    parts: &mut Parts,
) -> Result<(), Stop>
    requires idle { parts.old.called ≡ None }
    requires own { OwnsStreams parts.old streams.old }
    requires no_child { is_of_child action.now ≡ false }
    ensures wire_name { port.new.wire.ghost_name ≡ port.old.wire.ghost_name }
    ensures events_name { port.new.events.ghost_name ≡ port.old.events.ghost_name }
    ensures comes { Comes W.outside (plain.act (length parts.old.futures) returned action.now)
        streams.old streams.new
        (reach parts.old port.old.wire.now port.old.events.now)
        (reach parts.new port.new.wire.now port.new.events.now)
        result }
    ensures own { OnOk result (OwnsStreams parts.new streams.new) }
    ensures idle { parts.new.called ≡ None }
{
    match action {
        Action::ReadableServer(id) => readable_server(streams, alloc, *id, port, parts),
        Action::Readable(id) => streams.readable(alloc, *id, port, parts),
        Action::Writable(id) => streams.writable(alloc, *id, port, parts),
        Action::Down(id) => streams.down(alloc, *id, port, parts),
        Action::Lost { conn, broken } => streams.lose(alloc, *conn, *broken, port, parts),
        Action::StartRead(id) => {
            streams.start_read(*id);
            Ok(())
        }
        Action::Up(id) => Ok(streams.up(alloc, *id, parts)?),
        Action::HandlerDone { conn, task: _ } => {
            Ok(streams.handler_done(alloc, *conn, returned, parts)?)
        }
        Action::Made(_)
        | Action::WritableChild(_)
        | Action::ChildItem { child: _, item: _ }
        | Action::LostChild {
            child: _,
            broken: _,
        }
        | Action::Step(_)
        | Action::StepInCycle { task: _, cycle: _ }
        | Action::Wakeup(_)
        | Action::SleepDone { task: _, future: _ }
        | Action::GroupDone { group: _, task: _ }
        | Action::Fires(_)
        | Action::MainDone
        | Action::ExtraItem { code: _, bytes: _ }
        | Action::Extra(_) => Ok(()),
    }
}
