//! Its callbacks that ask the outside.
ghost use Rattle.std.specs.Prelude.{◌≡◌, None, Some, OnOk};
ghost use Rattle.model_stream.specs.Connections as plain;
ghost use Rattle.aio_exchange.specs.Follows.{Follows, after_of, reach};
ghost use Rattle.aio_change.specs.Seen.{seen_changed};
ghost use Rattle.aio_connection.specs.Owned.{OwnsConnection};

use super::Connection;
use super::callbacks::{forget_answer, loss, refusal};
use aio_exchange::ask;
use aio_task::{FutureId, Parts};
use aio_wire::{Call, Port, Stop, Wire};
use std::alloc::Global;

impl Connection {
    /// `readable`: what came is received, unless it reads no more.
    pub fn readable<W: Wire>(
        &mut self,
        alloc: Global,
        id: u32,
        port: &mut Port<W>,
        parts: &mut Parts,
    ) -> Result<(), Stop>
        requires idle { parts.old.called ≡ None }
        requires own { OwnsConnection parts.old self.old }
        ensures wire_name { port.new.wire.ghost_name ≡ port.old.wire.ghost_name }
        ensures events_name { port.new.events.ghost_name ≡ port.old.events.ghost_name }
        ensures follows { Follows W.outside seen_changed
            (plain.readable id self.old)
            (reach parts.old port.old.wire.now port.old.events.now)
            (reach parts.new port.new.wire.now port.new.events.now)
            (after_of self.new result) }
        ensures own { OnOk result (OwnsConnection parts.new self.new) }
        ensures idle { parts.new.called ≡ None }
    {
        if !self.reads() {
            return Ok(());
        }
        let answer = ask(port, alloc, Call::Recv(id))?;
        let done = self.received(alloc, id, &answer, parts);
        forget_answer(answer);
        done?;
        Ok(())
    }

    /// `writable`: what is unsent is sent.
    pub fn writable<W: Wire>(
        &mut self,
        alloc: Global,
        id: u32,
        port: &mut Port<W>,
        parts: &mut Parts,
    ) -> Result<(), Stop>
        requires idle { parts.old.called ≡ None }
        requires own { OwnsConnection parts.old self.old }
        ensures wire_name { port.new.wire.ghost_name ≡ port.old.wire.ghost_name }
        ensures events_name { port.new.events.ghost_name ≡ port.old.events.ghost_name }
        ensures follows { Follows W.outside seen_changed
            (plain.writable id self.old)
            (reach parts.old port.old.wire.now port.old.events.now)
            (reach parts.new port.new.wire.now port.new.events.now)
            (after_of self.new result) }
        ensures own { OnOk result (OwnsConnection parts.new self.new) }
        ensures idle { parts.new.called ≡ None }
    {
        if !self.has_unsent() {
            return Ok(());
        }
        self.send_more(alloc, id, port, parts)?;
        self.flushed(alloc, id, port, parts)
    }

    // What follows where all was sent: a closing one is lost at once, and the end is passed on.
    fn flushed<W: Wire>(
        &mut self,
        alloc: Global,
        id: u32,
        port: &mut Port<W>,
        parts: &mut Parts,
    ) -> Result<(), Stop>
        requires idle { parts.old.called ≡ None }
        requires own { OwnsConnection parts.old self.old }
        ensures wire_name { port.new.wire.ghost_name ≡ port.old.wire.ghost_name }
        ensures events_name { port.new.events.ghost_name ≡ port.old.events.ghost_name }
        ensures follows { Follows W.outside seen_changed
            (plain.flushed id self.old)
            (reach parts.old port.old.wire.now port.old.events.now)
            (reach parts.new port.new.wire.now port.new.events.now)
            (after_of self.new result) }
        ensures own { OnOk result (OwnsConnection parts.new self.new) }
        ensures idle { parts.new.called ≡ None }
    {
        if !self.is_flushed() {
            return Ok(());
        }
        if self.is_closing() {
            return self.lose(alloc, id, false, port, parts);
        }
        if !self.wrote_eof() {
            return Ok(());
        }
        forget_answer(ask(port, alloc, Call::Shut(id))?);
        Ok(())
    }

    /// `lost`: the reader is told first.
    pub fn lose<W: Wire>(
        &mut self,
        alloc: Global,
        id: u32,
        broken: bool,
        port: &mut Port<W>,
        parts: &mut Parts,
    ) -> Result<(), Stop>
        requires idle { parts.old.called ≡ None }
        requires own { OwnsConnection parts.old self.old }
        ensures wire_name { port.new.wire.ghost_name ≡ port.old.wire.ghost_name }
        ensures events_name { port.new.events.ghost_name ≡ port.old.events.ghost_name }
        ensures follows { Follows W.outside seen_changed
            (plain.lose id broken self.old)
            (reach parts.old port.old.wire.now port.old.events.now)
            (reach parts.new port.new.wire.now port.new.events.now)
            (after_of self.new result) }
        ensures own { OnOk result (OwnsConnection parts.new self.new) }
        ensures idle { parts.new.called ≡ None }
    {
        let exception = loss(alloc, id, broken)?;
        self.receive_loss(exception, parts);
        self.lose_sender(alloc, id, broken, port, parts)
    }

    /// `down`: it could not be made.
    pub fn down<W: Wire>(
        &mut self,
        alloc: Global,
        id: u32,
        port: &mut Port<W>,
        parts: &mut Parts,
    ) -> Result<(), Stop>
        requires idle { parts.old.called ≡ None }
        requires own { OwnsConnection parts.old self.old }
        ensures wire_name { port.new.wire.ghost_name ≡ port.old.wire.ghost_name }
        ensures events_name { port.new.events.ghost_name ≡ port.old.events.ghost_name }
        ensures follows { Follows W.outside seen_changed
            (plain.down id self.old)
            (reach parts.old port.old.wire.now port.old.events.now)
            (reach parts.new port.new.wire.now port.new.events.now)
            (after_of self.new result) }
        ensures own { OnOk result (OwnsConnection parts.new self.new) }
        ensures idle { parts.new.called ≡ None }
    {
        match self.making() {
            None => Ok(()),
            Some(on) => self.fall(alloc, id, on, port, parts),
        }
    }

    // It could not be made, and the connect that waits on this future raises.
    fn fall<W: Wire>(
        &mut self,
        alloc: Global,
        id: u32,
        on: FutureId,
        port: &mut Port<W>,
        parts: &mut Parts,
    ) -> Result<(), Stop>
        requires idle { parts.old.called ≡ None }
        requires making { self.old.making ≡ Some on }
        requires own { OwnsConnection parts.old self.old }
        ensures wire_name { port.new.wire.ghost_name ≡ port.old.wire.ghost_name }
        ensures events_name { port.new.events.ghost_name ≡ port.old.events.ghost_name }
        ensures follows { Follows W.outside seen_changed
            (plain.down id self.old)
            (reach parts.old port.old.wire.now port.old.events.now)
            (reach parts.new port.new.wire.now port.new.events.now)
            (after_of self.new result) }
        ensures own { OnOk result (OwnsConnection parts.new self.new) }
        ensures idle { parts.new.called ≡ None }
    {
        let refused = refusal(alloc)?;
        let _was_pending = parts.resolve(on, refused);
        forget_answer(ask(port, alloc, Call::Close(id))?);
        self.unmake();
        Ok(())
    }
}
