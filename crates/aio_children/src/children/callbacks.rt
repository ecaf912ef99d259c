//! Callbacks of children.
ghost use Rattle.std.specs.Prelude.{◌≡◌, None, OnOk};
ghost use Rattle.model_stream.specs.Children as child;
ghost use Rattle.model_stream.specs.Streams.{its_children, on_one};
ghost use Rattle.aio_exchange.specs.Follows.{reach};
ghost use Rattle.aio_children.specs.Owned.{OwnsChildren};
ghost use Rattle.aio_children.specs.Standing.{Comes, Told};

use super::Children;
use aio_base::{ChildItem, Memory};
use aio_task::Parts;
use aio_wire::{Port, Stop, Wire};
use std::alloc::Global;

impl Children {
    /// `writable` of a child's standard input.
    pub fn writable<W: Wire>(
        &mut self,
        alloc: Global,
        id: u32,
        port: &mut Port<W>,
        parts: &mut Parts,
    ) -> Result<(), Stop>
        requires idle { parts.old.called ≡ None }
        requires own { OwnsChildren parts.old self.old }
        ensures wire_name { port.new.wire.ghost_name ≡ port.old.wire.ghost_name }
        ensures events_name { port.new.events.ghost_name ≡ port.old.events.ghost_name }
        ensures comes { Comes W.outside (on_one its_children id (child.feed_more id))
            self.old self.new
            (reach parts.old port.old.wire.now port.old.events.now)
            (reach parts.new port.new.wire.now port.new.events.now)
            result }
        ensures own { OnOk result (OwnsChildren parts.new self.new) }
        ensures idle { parts.new.called ≡ None }
    {
        let Some(child) = self.children.get_mut(id as usize) else {
            return Ok(());
        };
        child.writable(alloc, id, port, parts)
    }

    /// `lost` of a child's standard input.
    pub fn lose<W: Wire>(
        &mut self,
        alloc: Global,
        id: u32,
        broken: bool,
        port: &mut Port<W>,
        parts: &mut Parts,
    ) -> Result<(), Stop>
        requires idle { parts.old.called ≡ None }
        requires own { OwnsChildren parts.old self.old }
        ensures wire_name { port.new.wire.ghost_name ≡ port.old.wire.ghost_name }
        ensures events_name { port.new.events.ghost_name ≡ port.old.events.ghost_name }
        ensures comes { Comes W.outside (on_one its_children id (child.lose_child id broken))
            self.old self.new
            (reach parts.old port.old.wire.now port.old.events.now)
            (reach parts.new port.new.wire.now port.new.events.now)
            result }
        ensures own { OnOk result (OwnsChildren parts.new self.new) }
        ensures idle { parts.new.called ≡ None }
    {
        let Some(child) = self.children.get_mut(id as usize) else {
            return Ok(());
        };
        child.lose(alloc, id, broken, port, parts)
    }

    /// `childitem`: what a child or one of its pipes tells.
    pub fn tell(
        &mut self,
        alloc: Global,
        id: u32,
        item: &ChildItem,
        parts: &mut Parts,
    ) -> Result<(), Memory>
        requires idle { parts.old.called ≡ None }
        requires own { OwnsChildren parts.old self.old }
        ensures told { OnOk result (Told (on_one its_children id (child.tell_child id item.now))
            self.old self.new parts.old parts.new) }
        ensures own { OnOk result (OwnsChildren parts.new self.new) }
        ensures idle { parts.new.called ≡ None }
    {
        let Some(child) = self.children.get_mut(id as usize) else {
            return Ok(());
        };
        child.tell(alloc, id, item, parts)
    }
}
