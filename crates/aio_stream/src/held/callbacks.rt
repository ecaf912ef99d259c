//! Callbacks of one.
ghost use Rattle.std.specs.Prelude.{◌≡◌, None, OnOk};
ghost use Rattle.model_stream.specs.Connections as plain;
ghost use Rattle.aio_exchange.specs.Follows.{Follows, after_of, reach};
ghost use Rattle.aio_exchange.specs.Tells.{Tells};
ghost use Rattle.aio_change.specs.Seen.{seen_changed};
ghost use Rattle.aio_connection.specs.Owned.{OwnsConnection};

use super::HeldConnection;
use aio_base::Memory;
use aio_task::Parts;
use aio_wire::{Port, Stop, Wire};
use std::alloc::Global;

impl HeldConnection {
    /// `readable`: what came is received, unless it reads no more.
    pub fn readable<W: Wire>(
        &mut self,
        alloc: Global,
        id: u32,
        port: &mut Port<W>,
        parts: &mut Parts,
    ) -> Result<(), Stop>
        requires idle { parts.old.called ≡ None }
        requires own { OwnsConnection parts.old self.old }
        ensures wire_name { port.new.wire.ghost_name ≡ port.old.wire.ghost_name }
        ensures events_name { port.new.events.ghost_name ≡ port.old.events.ghost_name }
        ensures follows { Follows W.outside seen_changed
            (plain.readable id self.old)
            (reach parts.old port.old.wire.now port.old.events.now)
            (reach parts.new port.new.wire.now port.new.events.now)
            (after_of self.new result) }
        ensures own { OnOk result (OwnsConnection parts.new self.new) }
        ensures idle { parts.new.called ≡ None }
    {
        let mut connection = self.lift(alloc)?;
        let done = connection.readable(alloc, id, port, parts);
        self.lay(connection);
        done
    }

    /// `writable`: what is unsent is sent.
    pub fn writable<W: Wire>(
        &mut self,
        alloc: Global,
        id: u32,
        port: &mut Port<W>,
        parts: &mut Parts,
    ) -> Result<(), Stop>
        requires idle { parts.old.called ≡ None }
        requires own { OwnsConnection parts.old self.old }
        ensures wire_name { port.new.wire.ghost_name ≡ port.old.wire.ghost_name }
        ensures events_name { port.new.events.ghost_name ≡ port.old.events.ghost_name }
        ensures follows { Follows W.outside seen_changed
            (plain.writable id self.old)
            (reach parts.old port.old.wire.now port.old.events.now)
            (reach parts.new port.new.wire.now port.new.events.now)
            (after_of self.new result) }
        ensures own { OnOk result (OwnsConnection parts.new self.new) }
        ensures idle { parts.new.called ≡ None }
    {
        let mut connection = self.lift(alloc)?;
        let done = connection.writable(alloc, id, port, parts);
        self.lay(connection);
        done
    }

    /// `lost`: the reader is told first.
    pub fn lose<W: Wire>(
        &mut self,
        alloc: Global,
        id: u32,
        broken: bool,
        port: &mut Port<W>,
        parts: &mut Parts,
    ) -> Result<(), Stop>
        requires idle { parts.old.called ≡ None }
        requires own { OwnsConnection parts.old self.old }
        ensures wire_name { port.new.wire.ghost_name ≡ port.old.wire.ghost_name }
        ensures events_name { port.new.events.ghost_name ≡ port.old.events.ghost_name }
        ensures follows { Follows W.outside seen_changed
            (plain.lose id broken self.old)
            (reach parts.old port.old.wire.now port.old.events.now)
            (reach parts.new port.new.wire.now port.new.events.now)
            (after_of self.new result) }
        ensures own { OnOk result (OwnsConnection parts.new self.new) }
        ensures idle { parts.new.called ≡ None }
    {
        let mut connection = self.lift(alloc)?;
        let done = connection.lose(alloc, id, broken, port, parts);
        self.lay(connection);
        done
    }

    /// `down`: it could not be made.
    pub fn down<W: Wire>(
        &mut self,
        alloc: Global,
        id: u32,
        port: &mut Port<W>,
        parts: &mut Parts,
    ) -> Result<(), Stop>
        requires idle { parts.old.called ≡ None }
        requires own { OwnsConnection parts.old self.old }
        ensures wire_name { port.new.wire.ghost_name ≡ port.old.wire.ghost_name }
        ensures events_name { port.new.events.ghost_name ≡ port.old.events.ghost_name }
        ensures follows { Follows W.outside seen_changed
            (plain.down id self.old)
            (reach parts.old port.old.wire.now port.old.events.now)
            (reach parts.new port.new.wire.now port.new.events.now)
            (after_of self.new result) }
        ensures own { OnOk result (OwnsConnection parts.new self.new) }
        ensures idle { parts.new.called ≡ None }
    {
        let mut connection = self.lift(alloc)?;
        let done = connection.down(alloc, id, port, parts);
        self.lay(connection);
        done
    }

    /// `up`: it stands, and the connect goes on with it.
    pub fn up(&mut self, alloc: Global, id: u32, parts: &mut Parts) -> Result<(), Memory>
        requires idle { parts.old.called ≡ None }
        requires own { OwnsConnection parts.old self.old }
        ensures tells { OnOk result (Tells seen_changed (plain.up id self.old)
            parts.old parts.new self.new) }
        ensures own { OnOk result (OwnsConnection parts.new self.new) }
        ensures idle { parts.new.called ≡ None }
    {
        let mut connection = self.lift(alloc)?;
        let done = connection.up(alloc, id, parts);
        self.lay(connection);
        done
    }

    /// `handlerdone`: a handler that failed or was cancelled closes its connection.
    pub fn handler_done(
        &mut self,
        alloc: Global,
        id: u32,
        returned: bool,
        parts: &mut Parts,
    ) -> Result<(), Memory>
        requires idle { parts.old.called ≡ None }
        ensures tells { OnOk result (Tells seen_changed (plain.handler_done id returned self.old)
            parts.old parts.new self.new) }
        ensures own { OnOk result
            (OwnsConnection parts.old self.old → OwnsConnection parts.new self.new) }
        ensures idle { parts.new.called ≡ None }
    {
        let mut connection = self.lift(alloc)?;
        let done = connection.handler_done(alloc, id, returned, parts);
        self.lay(connection);
        done
    }
}
