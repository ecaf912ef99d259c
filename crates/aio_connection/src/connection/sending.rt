//! What its sending side does alone.
ghost use Rattle.std.specs.Prelude.{◌≡◌, None, IfOk, OnOk, length};
ghost use Rattle.model_stream.specs.Connections as plain;
ghost use Rattle.model_stream.specs.Connections.{its_sender, outlet};
ghost use Rattle.model_stream.specs.Doing.{Ends, asked_on, on};
ghost use Rattle.model_stream.specs.Senders as senders;
ghost use Rattle.aio_exchange.specs.Follows.{Follows, after_of, reach, with_after};
ghost use Rattle.aio_exchange.specs.Tells.{Tells};
ghost use Rattle.aio_task.specs.View.{View};
ghost use Rattle.aio_change.specs.Seen.{seen_changed};
ghost use Rattle.aio_connection.specs.Owned.{OwnsConnection};

use super::Connection;
use aio_base::Memory;
use aio_flow::Limited;
use aio_sender::Drain;
use aio_task::Parts;
use aio_wire::{Port, Stop, Wire};
use model_stream::Wrote;
use model_wire::Handed;
use std::alloc::Global;

impl Connection {
    /// A piece is written. Where nothing was unsent it is offered at once.
    pub fn write<W: Wire>(
        &mut self,
        alloc: Global,
        id: u32,
        piece: &[u8],
        port: &mut Port<W>,
        parts: &mut Parts,
    ) -> Result<Wrote, Stop>
        requires idle { parts.old.called ≡ None }
        ensures wire_name { port.new.wire.ghost_name ≡ port.old.wire.ghost_name }
        ensures events_name { port.new.events.ghost_name ≡ port.old.events.ghost_name }
        ensures follows { Follows W.outside seen_changed
            (plain.write_to id piece.now self.old)
            (reach parts.old port.old.wire.now port.old.events.now)
            (reach parts.new port.new.wire.now port.new.events.now)
            (with_after self.new result) }
        ensures own { OnOk result
            (OwnsConnection parts.old self.old → OwnsConnection parts.new self.new) }
        ensures idle { parts.new.called ≡ None }
    {
        self.sender
            .write(alloc, Handed::Conn(id), piece, port, parts)
    }

    // More is sent.
    pub(super) fn send_more<W: Wire>(
        &mut self,
        alloc: Global,
        id: u32,
        port: &mut Port<W>,
        parts: &mut Parts,
    ) -> Result<(), Stop>
        requires idle { parts.old.called ≡ None }
        requires own { OwnsConnection parts.old self.old }
        ensures wire_name { port.new.wire.ghost_name ≡ port.old.wire.ghost_name }
        ensures events_name { port.new.events.ghost_name ≡ port.old.events.ghost_name }
        ensures follows { Follows W.outside seen_changed
            (on its_sender (senders.send_more (outlet id)) self.old)
            (reach parts.old port.old.wire.now port.old.events.now)
            (reach parts.new port.new.wire.now port.new.events.now)
            (after_of self.new result) }
        ensures own { OnOk result (OwnsConnection parts.new self.new) }
        ensures idle { parts.new.called ≡ None }
    {
        self.sender.send_more(alloc, Handed::Conn(id), port, parts)
    }

    // Its loss is done.
    pub(super) fn lose_sender<W: Wire>(
        &mut self,
        alloc: Global,
        id: u32,
        broken: bool,
        port: &mut Port<W>,
        parts: &mut Parts,
    ) -> Result<(), Stop>
        requires idle { parts.old.called ≡ None }
        requires own { OwnsConnection parts.old self.old }
        ensures wire_name { port.new.wire.ghost_name ≡ port.old.wire.ghost_name }
        ensures events_name { port.new.events.ghost_name ≡ port.old.events.ghost_name }
        ensures follows { Follows W.outside seen_changed
            (on its_sender (senders.lose_sender (outlet id) broken) self.old)
            (reach parts.old port.old.wire.now port.old.events.now)
            (reach parts.new port.new.wire.now port.new.events.now)
            (after_of self.new result) }
        ensures own { OnOk result (OwnsConnection parts.new self.new) }
        ensures idle { parts.new.called ≡ None }
    {
        self.sender
            .lose(alloc, Handed::Conn(id), broken, port, parts)
    }

    // A failure of the outside.
    pub(super) fn fail(&mut self, alloc: Global, id: u32, parts: &mut Parts) -> Result<(), Memory>
        requires idle { parts.old.called ≡ None }
        ensures tells { OnOk result (Tells seen_changed (plain.fail id self.old)
            parts.old parts.new self.new) }
        ensures own { OnOk result
            (OwnsConnection parts.old self.old → OwnsConnection parts.new self.new) }
        ensures idle { parts.new.called ≡ None }
    {
        self.sender.fail(alloc, Handed::Conn(id), parts)
    }

    /// Closing waits for what is unsent; a closing one is closed no more.
    pub fn close(&mut self, alloc: Global, id: u32, parts: &mut Parts) -> Result<(), Memory>
        requires idle { parts.old.called ≡ None }
        ensures tells { OnOk result (Tells seen_changed (plain.close id self.old)
            parts.old parts.new self.new) }
        ensures own { OnOk result
            (OwnsConnection parts.old self.old → OwnsConnection parts.new self.new) }
        ensures idle { parts.new.called ≡ None }
    {
        self.sender.close(alloc, Handed::Conn(id), parts)
    }

    // A drain, after the reader's exception.
    pub(super) fn drain_sender(
        &mut self,
        alloc: Global,
        yielded: bool,
        parts: &mut Parts,
    ) -> Result<Drain, Memory>
        requires idle { parts.old.called ≡ None }
        ensures tells { IfOk result (λ next. Tells seen_changed
            (asked_on its_sender (senders.drain_sender yielded (length parts.old.futures)) self.old)
            parts.old parts.new (self.new, next)) }
        ensures own { OnOk result
            (OwnsConnection parts.old self.old → OwnsConnection parts.new self.new) }
        ensures idle { parts.new.called ≡ None }
    {
        self.sender.drain(alloc, yielded, parts)
    }

    /// New marks, unless they are refused. It changes no futures.
    pub fn limits(&mut self, high: Option<i64>, low: Option<i64>) -> Limited
        ensures is { plain.limits_of high low self.old ≡ Ends (self.new, result) }
        ensures frame { self.new ≡ record self.old {
          sender = senders.with_writer self.new.sender.writer self.old.sender;
        } }
        ensures own { (v : View) → OwnsConnection v self.old → OwnsConnection v self.new }
    {
        self.sender.limits(high, low)
    }
}
