//! Requests on one.
ghost use Rattle.std.specs.Prelude.{◌≡◌, None, IfOk, OnOk, length};
ghost use Rattle.model_stream.specs.Connections as plain;
ghost use Rattle.model_stream.specs.Connections.{its_receiver};
ghost use Rattle.model_stream.specs.Doing.{asked_on};
ghost use Rattle.model_stream.specs.Receivers as receivers;
ghost use Rattle.aio_exchange.specs.Follows.{Follows, after_of, reach, with_after};
ghost use Rattle.aio_exchange.specs.Tells.{Tells};
ghost use Rattle.aio_change.specs.Seen.{seen_changed};
ghost use Rattle.aio_connection.specs.Gotten.{all_got};
ghost use Rattle.aio_connection.specs.Owned.{OwnsConnection};

use super::HeldConnection;
use aio_base::Memory;
use aio_connection::{AllGot, Drain, StreamGot};
use aio_reader::ReadOp;
use aio_task::Parts;
use aio_wire::{Port, Stop, Wire};
use model_stream::Wrote;
use std::alloc::Global;

impl HeldConnection {
    /// A piece is written. Where nothing was unsent it is offered at once.
    pub fn write<W: Wire>(
        &mut self,
        alloc: Global,
        id: u32,
        piece: &[u8],
        port: &mut Port<W>,
        parts: &mut Parts,
    ) -> Result<Wrote, Stop>
        requires idle { parts.old.called ≡ None }
        ensures wire_name { port.new.wire.ghost_name ≡ port.old.wire.ghost_name }
        ensures events_name { port.new.events.ghost_name ≡ port.old.events.ghost_name }
        ensures follows { Follows W.outside seen_changed
            (plain.write_to id piece.now self.old)
            (reach parts.old port.old.wire.now port.old.events.now)
            (reach parts.new port.new.wire.now port.new.events.now)
            (with_after self.new result) }
        ensures own { OnOk result
            (OwnsConnection parts.old self.old → OwnsConnection parts.new self.new) }
        ensures idle { parts.new.called ≡ None }
    {
        let mut connection = self.lift(alloc)?;
        let done = connection.write(alloc, id, piece, port, parts);
        self.lay(connection);
        done
    }

    /// `write_eof`: the end is passed on where nothing is unsent, and else when all was sent.
    pub fn write_eof<W: Wire>(
        &mut self,
        alloc: Global,
        id: u32,
        port: &mut Port<W>,
        parts: &mut Parts,
    ) -> Result<(), Stop>
        requires idle { parts.old.called ≡ None }
        ensures wire_name { port.new.wire.ghost_name ≡ port.old.wire.ghost_name }
        ensures events_name { port.new.events.ghost_name ≡ port.old.events.ghost_name }
        ensures follows { Follows W.outside seen_changed
            (plain.write_eof id self.old)
            (reach parts.old port.old.wire.now port.old.events.now)
            (reach parts.new port.new.wire.now port.new.events.now)
            (after_of self.new result) }
        ensures own { OnOk result
            (OwnsConnection parts.old self.old → OwnsConnection parts.new self.new) }
        ensures idle { parts.new.called ≡ None }
    {
        let mut connection = self.lift(alloc)?;
        let done = connection.write_eof(alloc, id, port, parts);
        self.lay(connection);
        done
    }

    /// A connect that is thrown an exception gives its connection up.
    pub fn drop_connect<W: Wire>(
        &mut self,
        alloc: Global,
        id: u32,
        port: &mut Port<W>,
        parts: &mut Parts,
    ) -> Result<(), Stop>
        requires idle { parts.old.called ≡ None }
        ensures wire_name { port.new.wire.ghost_name ≡ port.old.wire.ghost_name }
        ensures events_name { port.new.events.ghost_name ≡ port.old.events.ghost_name }
        ensures follows { Follows W.outside seen_changed
            (plain.drop_connect id self.old)
            (reach parts.old port.old.wire.now port.old.events.now)
            (reach parts.new port.new.wire.now port.new.events.now)
            (after_of self.new result) }
        ensures own { OnOk result
            (OwnsConnection parts.old self.old → OwnsConnection parts.new self.new) }
        ensures idle { parts.new.called ≡ None }
    {
        let mut connection = self.lift(alloc)?;
        let done = connection.drop_connect(alloc, id, port, parts);
        self.lay(connection);
        done
    }

    /// Closing waits for what is unsent; a closing one is closed no more.
    pub fn close(&mut self, alloc: Global, id: u32, parts: &mut Parts) -> Result<(), Memory>
        requires idle { parts.old.called ≡ None }
        ensures tells { OnOk result (Tells seen_changed (plain.close id self.old)
            parts.old parts.new self.new) }
        ensures own { OnOk result
            (OwnsConnection parts.old self.old → OwnsConnection parts.new self.new) }
        ensures idle { parts.new.called ≡ None }
    {
        let mut connection = self.lift(alloc)?;
        let done = connection.close(alloc, id, parts);
        self.lay(connection);
        done
    }

    /// `drain`: the reader's exception comes first, and isn't asked for again after the bare `yield`.
    pub fn drain(
        &mut self,
        alloc: Global,
        yielded: bool,
        parts: &mut Parts,
    ) -> Result<Drain, Memory>
        requires idle { parts.old.called ≡ None }
        ensures tells { IfOk result (λ next. Tells seen_changed
            (plain.drain_of yielded (length parts.old.futures) self.old)
            parts.old parts.new (self.new, next)) }
        ensures own { OnOk result
            (OwnsConnection parts.old self.old → OwnsConnection parts.new self.new) }
        ensures idle { parts.new.called ≡ None }
    {
        let mut connection = self.lift(alloc)?;
        let done = connection.drain(alloc, yielded, parts);
        self.lay(connection);
        done
    }

    /// An operation on what is held, at its start and again at each waking.
    pub fn read(
        &mut self,
        alloc: Global,
        op: &ReadOp,
        parts: &mut Parts,
    ) -> Result<StreamGot, Memory>
        requires idle { parts.old.called ≡ None }
        ensures tells { IfOk result (λ got. Tells seen_changed
            (asked_on its_receiver (receivers.read (length parts.old.futures) op.now) self.old)
            parts.old parts.new (self.new, got)) }
        ensures own { OnOk result
            (OwnsConnection parts.old self.old → OwnsConnection parts.new self.new) }
        ensures idle { parts.new.called ≡ None }
    {
        let mut connection = self.lift(alloc)?;
        let done = connection.read(alloc, op, parts);
        self.lay(connection);
        done
    }

    /// One look of a read with a negative count, at its start and again at each waking.
    pub fn read_all(&mut self, alloc: Global, parts: &mut Parts) -> Result<AllGot, Memory>
        requires idle { parts.old.called ≡ None }
        ensures tells { IfOk result (λ said. Tells seen_changed
            (asked_on its_receiver (receivers.read_all (length parts.old.futures)) self.old)
            parts.old parts.new (self.new, all_got said)) }
        ensures own { OnOk result
            (OwnsConnection parts.old self.old → OwnsConnection parts.new self.new) }
        ensures idle { parts.new.called ≡ None }
    {
        let mut connection = self.lift(alloc)?;
        let done = connection.read_all(alloc, parts);
        self.lay(connection);
        done
    }
}
