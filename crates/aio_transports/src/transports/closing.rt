//! How listeners, connections and children are closed.
ghost use Rattle.std.specs.Prelude.{◌≡◌, None, IfOk, OnOk, length};
ghost use Rattle.model_stream.specs.Requests as plain;
ghost use Rattle.model_stream.specs.Streams as streams;
ghost use Rattle.aio_exchange.specs.Follows.{reach};
ghost use Rattle.aio_task.specs.View.{View};
ghost use Rattle.aio_transports.specs.Owned.{OwnsTransports};
ghost use Rattle.aio_transports.specs.Standing.{Comes, Told, ToldWith};

use super::Transports;
use aio_base::Memory;
use aio_listener::close_server;
use aio_task::Parts;
use aio_wire::{Port, Stop, Wire};
use model_stream::ChildWait;
use model_wire::Handed;
use std::alloc::Global;

impl Transports {
    /// `close` of a connection, or of a child's standard input.
    pub fn close(&mut self, alloc: Global, whom: Handed, parts: &mut Parts) -> Result<(), Memory>
        requires idle { parts.old.called ≡ None }
        requires own { OwnsTransports parts.old self.old }
        ensures told { OnOk result (Told (plain.close whom)
            self.old self.new parts.old parts.new) }
        ensures own { OnOk result (OwnsTransports parts.new self.new) }
        ensures idle { parts.new.called ≡ None }
    {
        match whom {
            Handed::Conn(id) => self.streams.close(alloc, id, parts),
            Handed::Child(id) => self.children.close(alloc, id, parts),
        }
    }

    /// `close` of a listener, which is closed once.
    pub fn close_server<W: Wire>(
        &mut self,
        alloc: Global,
        id: u32,
        port: &mut Port<W>,
    ) -> Result<(), Stop>
        ensures wire_name { port.new.wire.ghost_name ≡ port.old.wire.ghost_name }
        ensures events_name { port.new.events.ghost_name ≡ port.old.events.ghost_name }
        ensures comes { (v : View) → Comes W.outside (streams.close_server id)
            self.old self.new
            (reach v port.old.wire.now port.old.events.now)
            (reach v port.new.wire.now port.new.events.now)
            result }
        ensures own { OnOk result
            ((v : View) → OwnsTransports v self.old → OwnsTransports v self.new) }
    {
        close_server(&mut self.streams, alloc, id, port)
    }

    /// A connect is thrown an exception.
    pub fn drop_connect<W: Wire>(
        &mut self,
        alloc: Global,
        conn: u32,
        port: &mut Port<W>,
        parts: &mut Parts,
    ) -> Result<(), Stop>
        requires idle { parts.old.called ≡ None }
        requires own { OwnsTransports parts.old self.old }
        ensures wire_name { port.new.wire.ghost_name ≡ port.old.wire.ghost_name }
        ensures events_name { port.new.events.ghost_name ≡ port.old.events.ghost_name }
        ensures comes { Comes W.outside (plain.drop_connect conn)
            self.old self.new
            (reach parts.old port.old.wire.now port.old.events.now)
            (reach parts.new port.new.wire.now port.new.events.now)
            result }
        ensures own { OnOk result (OwnsTransports parts.new self.new) }
        ensures idle { parts.new.called ≡ None }
    {
        self.streams.drop_connect(alloc, conn, port, parts)
    }

    /// A wait for a child's exit: the code, or the future that it waits on.
    pub fn wait(
        &mut self,
        alloc: Global,
        child: u32,
        parts: &mut Parts,
    ) -> Result<ChildWait, Memory>
        requires idle { parts.old.called ≡ None }
        requires own { OwnsTransports parts.old self.old }
        ensures told { IfOk result (λ said. ToldWith
            (plain.wait (length parts.old.futures) child)
            self.old self.new parts.old parts.new said) }
        ensures own { OnOk result (OwnsTransports parts.new self.new) }
        ensures idle { parts.new.called ≡ None }
    {
        self.children.wait(alloc, child, parts)
    }

    /// `kill`: nothing is asked after a child's exit, and nothing changes.
    pub fn kill<W: Wire>(&self, alloc: Global, child: u32, port: &mut Port<W>) -> Result<(), Stop>
        ensures wire_name { port.new.wire.ghost_name ≡ port.old.wire.ghost_name }
        ensures events_name { port.new.events.ghost_name ≡ port.old.events.ghost_name }
        ensures comes { (v : View) → Comes W.outside (plain.kill child) self.now self.now
            (reach v port.old.wire.now port.old.events.now)
            (reach v port.new.wire.now port.new.events.now)
            result }
    {
        self.children.kill(alloc, child, port)
    }
}
