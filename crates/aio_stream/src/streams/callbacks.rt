//! Callbacks of connections.
ghost use Rattle.std.specs.Prelude.{◌≡◌, None, OnOk};
ghost use Rattle.model_stream.specs.Connections as connection;
ghost use Rattle.model_stream.specs.Doing.{Ends};
ghost use Rattle.model_stream.specs.Streams.{its_connections, on_one};
ghost use Rattle.aio_exchange.specs.Follows.{reach};
ghost use Rattle.aio_task.specs.View.{View};
ghost use Rattle.aio_stream.specs.Owned.{OwnsStreams};
ghost use Rattle.aio_stream.specs.Standing.{Comes, Told};

use super::Streams;
use aio_base::Memory;
use aio_task::Parts;
use aio_wire::{Port, Stop, Wire};
use std::alloc::Global;

impl Streams {
    /// `readable` of a connection.
    pub fn readable<W: Wire>(
        &mut self,
        alloc: Global,
        id: u32,
        port: &mut Port<W>,
        parts: &mut Parts,
    ) -> Result<(), Stop>
        requires idle { parts.old.called ≡ None }
        requires own { OwnsStreams parts.old self.old }
        ensures wire_name { port.new.wire.ghost_name ≡ port.old.wire.ghost_name }
        ensures events_name { port.new.events.ghost_name ≡ port.old.events.ghost_name }
        ensures comes { Comes W.outside (on_one its_connections id (connection.readable id))
            self.old self.new
            (reach parts.old port.old.wire.now port.old.events.now)
            (reach parts.new port.new.wire.now port.new.events.now)
            result }
        ensures own { OnOk result (OwnsStreams parts.new self.new) }
        ensures idle { parts.new.called ≡ None }
    {
        let Some(connection) = self.connections.get_mut(id as usize) else {
            return Ok(());
        };
        connection.readable(alloc, id, port, parts)
    }

    /// `writable` of a connection.
    pub fn writable<W: Wire>(
        &mut self,
        alloc: Global,
        id: u32,
        port: &mut Port<W>,
        parts: &mut Parts,
    ) -> Result<(), Stop>
        requires idle { parts.old.called ≡ None }
        requires own { OwnsStreams parts.old self.old }
        ensures wire_name { port.new.wire.ghost_name ≡ port.old.wire.ghost_name }
        ensures events_name { port.new.events.ghost_name ≡ port.old.events.ghost_name }
        ensures comes { Comes W.outside (on_one its_connections id (connection.writable id))
            self.old self.new
            (reach parts.old port.old.wire.now port.old.events.now)
            (reach parts.new port.new.wire.now port.new.events.now)
            result }
        ensures own { OnOk result (OwnsStreams parts.new self.new) }
        ensures idle { parts.new.called ≡ None }
    {
        let Some(connection) = self.connections.get_mut(id as usize) else {
            return Ok(());
        };
        connection.writable(alloc, id, port, parts)
    }

    /// `down` of a connection.
    pub fn down<W: Wire>(
        &mut self,
        alloc: Global,
        id: u32,
        port: &mut Port<W>,
        parts: &mut Parts,
    ) -> Result<(), Stop>
        requires idle { parts.old.called ≡ None }
        requires own { OwnsStreams parts.old self.old }
        ensures wire_name { port.new.wire.ghost_name ≡ port.old.wire.ghost_name }
        ensures events_name { port.new.events.ghost_name ≡ port.old.events.ghost_name }
        ensures comes { Comes W.outside (on_one its_connections id (connection.down id))
            self.old self.new
            (reach parts.old port.old.wire.now port.old.events.now)
            (reach parts.new port.new.wire.now port.new.events.now)
            result }
        ensures own { OnOk result (OwnsStreams parts.new self.new) }
        ensures idle { parts.new.called ≡ None }
    {
        let Some(connection) = self.connections.get_mut(id as usize) else {
            return Ok(());
        };
        connection.down(alloc, id, port, parts)
    }

    /// `lost` of a connection.
    pub fn lose<W: Wire>(
        &mut self,
        alloc: Global,
        id: u32,
        broken: bool,
        port: &mut Port<W>,
        parts: &mut Parts,
    ) -> Result<(), Stop>
        requires idle { parts.old.called ≡ None }
        requires own { OwnsStreams parts.old self.old }
        ensures wire_name { port.new.wire.ghost_name ≡ port.old.wire.ghost_name }
        ensures events_name { port.new.events.ghost_name ≡ port.old.events.ghost_name }
        ensures comes { Comes W.outside (on_one its_connections id (connection.lose id broken))
            self.old self.new
            (reach parts.old port.old.wire.now port.old.events.now)
            (reach parts.new port.new.wire.now port.new.events.now)
            result }
        ensures own { OnOk result (OwnsStreams parts.new self.new) }
        ensures idle { parts.new.called ≡ None }
    {
        let Some(connection) = self.connections.get_mut(id as usize) else {
            return Ok(());
        };
        connection.lose(alloc, id, broken, port, parts)
    }

    /// `up` of a connection.
    pub fn up(&mut self, alloc: Global, id: u32, parts: &mut Parts) -> Result<(), Memory>
        requires idle { parts.old.called ≡ None }
        requires own { OwnsStreams parts.old self.old }
        ensures told { OnOk result (Told (on_one its_connections id (connection.up id))
            self.old self.new parts.old parts.new) }
        ensures own { OnOk result (OwnsStreams parts.new self.new) }
        ensures idle { parts.new.called ≡ None }
    {
        let Some(connection) = self.connections.get_mut(id as usize) else {
            return Ok(());
        };
        connection.up(alloc, id, parts)
    }

    /// `handlerdone` of a connection, whose handler returned, or failed or was cancelled.
    pub fn handler_done(
        &mut self,
        alloc: Global,
        id: u32,
        returned: bool,
        parts: &mut Parts,
    ) -> Result<(), Memory>
        requires idle { parts.old.called ≡ None }
        requires own { OwnsStreams parts.old self.old }
        ensures told { OnOk result (Told
            (on_one its_connections id (connection.handler_done id returned))
            self.old self.new parts.old parts.new) }
        ensures own { OnOk result (OwnsStreams parts.new self.new) }
        ensures idle { parts.new.called ≡ None }
    {
        let Some(connection) = self.connections.get_mut(id as usize) else {
            return Ok(());
        };
        connection.handler_done(alloc, id, returned, parts)
    }

    /// `startread` of a connection.
    pub fn start_read(&mut self, id: u32)
        ensures told { (v : View) → Told
            (on_one its_connections id (λ c. Ends (connection.start_read c)))
            self.old self.new v v }
        ensures own { (v : View) → OwnsStreams v self.old → OwnsStreams v self.new }
    {
        let Some(connection) = self.connections.get_mut(id as usize) else {
            return;
        };
        connection.start_read();
    }
}
