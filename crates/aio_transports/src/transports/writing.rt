//! What is written to a connection, or to a child's standard input.
ghost use Rattle.std.specs.Prelude.{◌≡◌, None, IfOk, OnOk, length};
ghost use Rattle.model_stream.specs.Requests as plain;
ghost use Rattle.aio_exchange.specs.Follows.{reach};
ghost use Rattle.aio_task.specs.View.{View};
ghost use Rattle.aio_transports.specs.Owned.{OwnsTransports};
ghost use Rattle.aio_transports.specs.Standing.{Answers, Comes, ToldWith};

use super::Transports;
use aio_base::Memory;
use aio_stream::Drain;
use aio_task::Parts;
use aio_wire::{Port, Stop, Wire};
use model_stream::{Limited, Wrote};
use model_wire::Handed;
use std::alloc::Global;

impl Transports {
    /// A piece is written.
    pub fn write<W: Wire>(
        &mut self,
        alloc: Global,
        whom: Handed,
        piece: &[u8],
        port: &mut Port<W>,
        parts: &mut Parts,
    ) -> Result<Wrote, Stop>
        requires idle { parts.old.called ≡ None }
        requires own { OwnsTransports parts.old self.old }
        ensures wire_name { port.new.wire.ghost_name ≡ port.old.wire.ghost_name }
        ensures events_name { port.new.events.ghost_name ≡ port.old.events.ghost_name }
        ensures comes { Answers W.outside (plain.write whom piece.now)
            self.old self.new
            (reach parts.old port.old.wire.now port.old.events.now)
            (reach parts.new port.new.wire.now port.new.events.now)
            result }
        ensures own { OnOk result (OwnsTransports parts.new self.new) }
        ensures idle { parts.new.called ≡ None }
    {
        match whom {
            Handed::Conn(id) => self.streams.write(alloc, id, piece, port, parts),
            Handed::Child(id) => self.children.write(alloc, id, piece, port, parts),
        }
    }

    /// `write_eof` of a connection.
    pub fn write_eof<W: Wire>(
        &mut self,
        alloc: Global,
        conn: u32,
        port: &mut Port<W>,
        parts: &mut Parts,
    ) -> Result<(), Stop>
        requires idle { parts.old.called ≡ None }
        requires own { OwnsTransports parts.old self.old }
        ensures wire_name { port.new.wire.ghost_name ≡ port.old.wire.ghost_name }
        ensures events_name { port.new.events.ghost_name ≡ port.old.events.ghost_name }
        ensures comes { Comes W.outside (plain.write_eof conn)
            self.old self.new
            (reach parts.old port.old.wire.now port.old.events.now)
            (reach parts.new port.new.wire.now port.new.events.now)
            result }
        ensures own { OnOk result (OwnsTransports parts.new self.new) }
        ensures idle { parts.new.called ≡ None }
    {
        self.streams.write_eof(alloc, conn, port, parts)
    }

    /// What a drain does next. `yielded` says that it comes after the bare `yield`.
    pub fn drain(
        &mut self,
        alloc: Global,
        whom: Handed,
        yielded: bool,
        parts: &mut Parts,
    ) -> Result<Drain, Memory>
        requires idle { parts.old.called ≡ None }
        requires own { OwnsTransports parts.old self.old }
        ensures told { IfOk result (λ next. ToldWith
            (plain.drain yielded (length parts.old.futures) whom)
            self.old self.new parts.old parts.new next) }
        ensures own { OnOk result (OwnsTransports parts.new self.new) }
        ensures idle { parts.new.called ≡ None }
    {
        match whom {
            Handed::Conn(id) => self.streams.drain(alloc, id, yielded, parts),
            Handed::Child(id) => self.children.drain(alloc, id, yielded, parts),
        }
    }

    /// New marks of a writer, unless they are refused. It changes nothing of the loop.
    pub fn limits(&mut self, whom: Handed, high: Option<i64>, low: Option<i64>) -> Limited
        ensures told { (v : View) → ToldWith (plain.limits high low whom)
            self.old self.new v v result }
        ensures own { (v : View) → OwnsTransports v self.old → OwnsTransports v self.new }
    {
        match whom {
            Handed::Conn(id) => self.streams.limits(id, high, low),
            Handed::Child(id) => self.children.limits(id, high, low),
        }
    }
}
