//! Requests on connections.
ghost use Rattle.std.specs.Prelude.{◌≡◌, [], None, IfOk, OnOk, length};
ghost use Rattle.model_stream.specs.declared.answers.StreamGot.TheVariants as got_as;
ghost use Rattle.model_wire.specs.declared.event.Handed.TheVariants as to;
ghost use Rattle.model_stream.specs.Requests as plain;
ghost use Rattle.aio_exchange.specs.Follows.{reach};
ghost use Rattle.aio_task.specs.View.{View};
ghost use Rattle.aio_connection.specs.Gotten.{all_got};
ghost use Rattle.aio_stream.specs.Owned.{OwnsStreams};
ghost use Rattle.aio_stream.specs.Standing.{Answers, Becomes, Comes, Told, ToldWith};

use super::Streams;
use aio_base::{Blob, Memory};
use aio_connection::{AllGot, Drain, StreamGot};
use aio_reader::ReadOp;
use aio_task::{FutureId, Parts};
use aio_wire::{Port, Stop, Wire};
use model_stream::{Limited, Wrote};
use std::alloc::Global;

impl Streams {
    /// A piece is written to a connection.
    pub fn write<W: Wire>(
        &mut self,
        alloc: Global,
        id: u32,
        piece: &[u8],
        port: &mut Port<W>,
        parts: &mut Parts,
    ) -> Result<Wrote, Stop>
        requires idle { parts.old.called ≡ None }
        requires own { OwnsStreams parts.old self.old }
        ensures wire_name { port.new.wire.ghost_name ≡ port.old.wire.ghost_name }
        ensures events_name { port.new.events.ghost_name ≡ port.old.events.ghost_name }
        ensures comes { Answers W.outside (plain.write (to.Conn id) piece.now)
            self.old self.new
            (reach parts.old port.old.wire.now port.old.events.now)
            (reach parts.new port.new.wire.now port.new.events.now)
            result }
        ensures own { OnOk result (OwnsStreams parts.new self.new) }
        ensures idle { parts.new.called ≡ None }
    {
        let Some(connection) = self.connections.get_mut(id as usize) else {
            return Ok(Wrote::Done);
        };
        connection.write(alloc, id, piece, port, parts)
    }

    /// `write_eof` of a connection.
    pub fn write_eof<W: Wire>(
        &mut self,
        alloc: Global,
        id: u32,
        port: &mut Port<W>,
        parts: &mut Parts,
    ) -> Result<(), Stop>
        requires idle { parts.old.called ≡ None }
        requires own { OwnsStreams parts.old self.old }
        ensures wire_name { port.new.wire.ghost_name ≡ port.old.wire.ghost_name }
        ensures events_name { port.new.events.ghost_name ≡ port.old.events.ghost_name }
        ensures comes { Comes W.outside (plain.write_eof id)
            self.old self.new
            (reach parts.old port.old.wire.now port.old.events.now)
            (reach parts.new port.new.wire.now port.new.events.now)
            result }
        ensures own { OnOk result (OwnsStreams parts.new self.new) }
        ensures idle { parts.new.called ≡ None }
    {
        let Some(connection) = self.connections.get_mut(id as usize) else {
            return Ok(());
        };
        connection.write_eof(alloc, id, port, parts)
    }

    /// A connect is thrown an exception.
    pub fn drop_connect<W: Wire>(
        &mut self,
        alloc: Global,
        id: u32,
        port: &mut Port<W>,
        parts: &mut Parts,
    ) -> Result<(), Stop>
        requires idle { parts.old.called ≡ None }
        requires own { OwnsStreams parts.old self.old }
        ensures wire_name { port.new.wire.ghost_name ≡ port.old.wire.ghost_name }
        ensures events_name { port.new.events.ghost_name ≡ port.old.events.ghost_name }
        ensures comes { Comes W.outside (plain.drop_connect id)
            self.old self.new
            (reach parts.old port.old.wire.now port.old.events.now)
            (reach parts.new port.new.wire.now port.new.events.now)
            result }
        ensures own { OnOk result (OwnsStreams parts.new self.new) }
        ensures idle { parts.new.called ≡ None }
    {
        let Some(connection) = self.connections.get_mut(id as usize) else {
            return Ok(());
        };
        connection.drop_connect(alloc, id, port, parts)
    }

    /// `close` of a connection.
    pub fn close(&mut self, alloc: Global, id: u32, parts: &mut Parts) -> Result<(), Memory>
        requires idle { parts.old.called ≡ None }
        requires own { OwnsStreams parts.old self.old }
        ensures told { OnOk result (Told (plain.close (to.Conn id))
            self.old self.new parts.old parts.new) }
        ensures own { OnOk result (OwnsStreams parts.new self.new) }
        ensures idle { parts.new.called ≡ None }
    {
        let Some(connection) = self.connections.get_mut(id as usize) else {
            return Ok(());
        };
        connection.close(alloc, id, parts)
    }

    /// What a drain of a connection does next. `yielded` says that it comes after the bare `yield`.
    pub fn drain(
        &mut self,
        alloc: Global,
        id: u32,
        yielded: bool,
        parts: &mut Parts,
    ) -> Result<Drain, Memory>
        requires idle { parts.old.called ≡ None }
        requires own { OwnsStreams parts.old self.old }
        ensures told { IfOk result (λ next. ToldWith
            (plain.drain yielded (length parts.old.futures) (to.Conn id))
            self.old self.new parts.old parts.new next) }
        ensures own { OnOk result (OwnsStreams parts.new self.new) }
        ensures idle { parts.new.called ≡ None }
    {
        let Some(connection) = self.connections.get_mut(id as usize) else {
            return Ok(Drain::Goes);
        };
        connection.drain(alloc, yielded, parts)
    }

    /// An operation on what a connection holds, at its start and again at each waking.
    pub fn read(
        &mut self,
        alloc: Global,
        id: u32,
        op: &ReadOp,
        parts: &mut Parts,
    ) -> Result<StreamGot, Memory>
        requires idle { parts.old.called ≡ None }
        requires own { OwnsStreams parts.old self.old }
        ensures told { IfOk result (λ got. ToldWith
            (plain.read (length parts.old.futures) op.now (plain.OfConn id))
            self.old self.new parts.old parts.new got) }
        ensures own { OnOk result (OwnsStreams parts.new self.new) }
        ensures idle { parts.new.called ≡ None }
    {
        let Some(connection) = self.connections.get_mut(id as usize) else {
            return Ok(no_bytes(alloc));
        };
        connection.read(alloc, op, parts)
    }

    /// One look of a read with a negative count, at its start and again at each waking.
    pub fn read_all(&mut self, alloc: Global, id: u32, parts: &mut Parts) -> Result<AllGot, Memory>
        requires idle { parts.old.called ≡ None }
        requires own { OwnsStreams parts.old self.old }
        ensures told { IfOk result (λ said. ToldWith
            (plain.read_all (length parts.old.futures) (plain.OfConn id))
            self.old self.new parts.old parts.new (all_got said)) }
        ensures own { OnOk result (OwnsStreams parts.new self.new) }
        ensures idle { parts.new.called ≡ None }
    {
        let Some(connection) = self.connections.get_mut(id as usize) else {
            return Ok(nothing_taken(alloc));
        };
        connection.read_all(alloc, parts)
    }

    /// New marks of a connection's writer, unless they are refused.
    pub fn limits(&mut self, id: u32, high: Option<i64>, low: Option<i64>) -> Limited
        ensures told { (v : View) → ToldWith (plain.limits high low (to.Conn id))
            self.old self.new v v result }
        ensures own { (v : View) → OwnsStreams v self.old → OwnsStreams v self.new }
    {
        let Some(connection) = self.connections.get_mut(id as usize) else {
            return Limited::Set;
        };
        connection.limits(high, low)
    }

    /// The task of a read of a connection that waits on this future was resumed.
    pub fn give_up(&mut self, id: u32, on: FutureId)
        ensures after { Becomes (plain.give_up_read on (plain.OfConn id)) self.old self.new }
        ensures own { (v : View) → OwnsStreams v self.old → OwnsStreams v self.new }
    {
        let Some(connection) = self.connections.get_mut(id as usize) else {
            return;
        };
        connection.give_up(on);
    }
}

// What a read of none answers.
fn no_bytes(alloc: Global) -> StreamGot
    ensures { result ≡ got_as.Bytes [] }
{
    StreamGot::Bytes(Blob::of(Vec::new(alloc)))
}

fn nothing_taken(alloc: Global) -> AllGot
    ensures { all_got result ≡ record { taken = []; got = got_as.Bytes [] } }
{
    AllGot {
        taken: Blob::of(Vec::new(alloc)),
        got: no_bytes(alloc),
    }
}
