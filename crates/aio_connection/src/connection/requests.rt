//! Requests that concern more than one side, or ask.
ghost use Rattle.std.specs.Prelude.{◌≡◌, None, IfOk, OnOk, length};
ghost use Rattle.model_stream.specs.Connections as plain;
ghost use Rattle.aio_exchange.specs.Follows.{Follows, after_of, reach};
ghost use Rattle.aio_exchange.specs.Tells.{Tells};
ghost use Rattle.aio_change.specs.Seen.{seen_changed};
ghost use Rattle.aio_connection.specs.Owned.{OwnsConnection};

use super::Connection;
use super::callbacks::forget_answer;
use aio_base::Memory;
use aio_exchange::ask;
use aio_sender::Drain;
use aio_task::Parts;
use aio_wire::{Call, Port, Stop, Wire};
use std::alloc::Global;

impl Connection {
    /// `write_eof`: the end is passed on where nothing is unsent, and else when all was sent.
    pub fn write_eof<W: Wire>(
        &mut self,
        alloc: Global,
        id: u32,
        port: &mut Port<W>,
        parts: &mut Parts,
    ) -> Result<(), Stop>
        requires idle { parts.old.called ≡ None }
        ensures wire_name { port.new.wire.ghost_name ≡ port.old.wire.ghost_name }
        ensures events_name { port.new.events.ghost_name ≡ port.old.events.ghost_name }
        ensures follows { Follows W.outside seen_changed
            (plain.write_eof id self.old)
            (reach parts.old port.old.wire.now port.old.events.now)
            (reach parts.new port.new.wire.now port.new.events.now)
            (after_of self.new result) }
        ensures own { OnOk result
            (OwnsConnection parts.old self.old → OwnsConnection parts.new self.new) }
        ensures idle { parts.new.called ≡ None }
    {
        if self.ends_writing() {
            return Ok(());
        }
        let unsent = self.has_unsent();
        self.set_eof();
        if unsent {
            return Ok(());
        }
        forget_answer(ask(port, alloc, Call::Shut(id))?);
        Ok(())
    }

    /// A connect that is thrown an exception gives its connection up.
    pub fn drop_connect<W: Wire>(
        &mut self,
        alloc: Global,
        id: u32,
        port: &mut Port<W>,
        parts: &mut Parts,
    ) -> Result<(), Stop>
        requires idle { parts.old.called ≡ None }
        ensures wire_name { port.new.wire.ghost_name ≡ port.old.wire.ghost_name }
        ensures events_name { port.new.events.ghost_name ≡ port.old.events.ghost_name }
        ensures follows { Follows W.outside seen_changed
            (plain.drop_connect id self.old)
            (reach parts.old port.old.wire.now port.old.events.now)
            (reach parts.new port.new.wire.now port.new.events.now)
            (after_of self.new result) }
        ensures own { OnOk result
            (OwnsConnection parts.old self.old → OwnsConnection parts.new self.new) }
        ensures idle { parts.new.called ≡ None }
    {
        if self.making().is_some() {
            forget_answer(ask(port, alloc, Call::Close(id))?);
            self.unmake();
            return Ok(());
        }
        self.close(alloc, id, parts)?;
        Ok(())
    }

    /// `drain`: the reader's exception comes first, and isn't asked for again after the bare `yield`.
    pub fn drain(
        &mut self,
        alloc: Global,
        yielded: bool,
        parts: &mut Parts,
    ) -> Result<Drain, Memory>
        requires idle { parts.old.called ≡ None }
        ensures tells { IfOk result (λ next. Tells seen_changed
            (plain.drain_of yielded (length parts.old.futures) self.old)
            parts.old parts.new (self.new, next)) }
        ensures own { OnOk result
            (OwnsConnection parts.old self.old → OwnsConnection parts.new self.new) }
        ensures idle { parts.new.called ≡ None }
    {
        if yielded {
            return self.drain_sender(alloc, yielded, parts);
        }
        if let Some(fault) = self.failed() {
            return Ok(Drain::Raises(fault.clone()?));
        }
        self.drain_sender(alloc, yielded, parts)
    }
}
