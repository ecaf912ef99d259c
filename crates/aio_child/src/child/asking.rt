//! Its callbacks that ask the outside.
ghost use Rattle.std.specs.Prelude.{◌≡◌, None, OnOk};
ghost use Rattle.model_stream.specs.Children as plain;
ghost use Rattle.aio_exchange.specs.Follows.{Follows, after_of, reach};
ghost use Rattle.aio_change.specs.Seen.{seen_changed};
ghost use Rattle.aio_child.specs.Owned.{OwnsChild};

use super::Child;
use aio_task::Parts;
use aio_wire::{Port, Stop, Wire};
use std::alloc::Global;

impl Child {
    /// `writable`: its standard input is fed what is unsent.
    pub fn writable<W: Wire>(
        &mut self,
        alloc: Global,
        id: u32,
        port: &mut Port<W>,
        parts: &mut Parts,
    ) -> Result<(), Stop>
        requires idle { parts.old.called ≡ None }
        requires own { OwnsChild parts.old self.old }
        ensures wire_name { port.new.wire.ghost_name ≡ port.old.wire.ghost_name }
        ensures events_name { port.new.events.ghost_name ≡ port.old.events.ghost_name }
        ensures follows { Follows W.outside seen_changed
            (plain.feed_more id self.old)
            (reach parts.old port.old.wire.now port.old.events.now)
            (reach parts.new port.new.wire.now port.new.events.now)
            (after_of self.new result) }
        ensures own { OnOk result (OwnsChild parts.new self.new) }
        ensures idle { parts.new.called ≡ None }
    {
        if !self.has_unsent() {
            return Ok(());
        }
        self.send_more(alloc, id, port, parts)?;
        self.fed(alloc, id, port, parts)
    }

    // Where all was fed, a closing input is lost at once.
    fn fed<W: Wire>(
        &mut self,
        alloc: Global,
        id: u32,
        port: &mut Port<W>,
        parts: &mut Parts,
    ) -> Result<(), Stop>
        requires idle { parts.old.called ≡ None }
        requires own { OwnsChild parts.old self.old }
        ensures wire_name { port.new.wire.ghost_name ≡ port.old.wire.ghost_name }
        ensures events_name { port.new.events.ghost_name ≡ port.old.events.ghost_name }
        ensures follows { Follows W.outside seen_changed
            (plain.fed id self.old)
            (reach parts.old port.old.wire.now port.old.events.now)
            (reach parts.new port.new.wire.now port.new.events.now)
            (after_of self.new result) }
        ensures own { OnOk result (OwnsChild parts.new self.new) }
        ensures idle { parts.new.called ≡ None }
    {
        if !self.is_fed() {
            return Ok(());
        }
        self.lose(alloc, id, false, port, parts)
    }
}
