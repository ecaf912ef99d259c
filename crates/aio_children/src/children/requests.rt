//! Requests on a child's standard input, and on its exit.
ghost use Rattle.std.specs.Prelude.{◌≡◌, None, IfOk, OnOk, length};
ghost use Rattle.model_wire.specs.declared.event.Handed.TheVariants as to;
ghost use Rattle.model_stream.specs.Requests as plain;
ghost use Rattle.aio_exchange.specs.Follows.{reach};
ghost use Rattle.aio_task.specs.View.{View};
ghost use Rattle.aio_children.specs.Owned.{OwnsChildren};
ghost use Rattle.aio_children.specs.Standing.{Answers, Comes, Told, ToldWith};

use super::Children;
use aio_base::Memory;
use aio_child::Drain;
use aio_flow::Limited;
use aio_task::Parts;
use aio_wire::{Port, Stop, Wire};
use model_stream::{ChildWait, Wrote};
use std::alloc::Global;

impl Children {
    /// A piece is written to a child's standard input.
    pub fn write<W: Wire>(
        &mut self,
        alloc: Global,
        id: u32,
        piece: &[u8],
        port: &mut Port<W>,
        parts: &mut Parts,
    ) -> Result<Wrote, Stop>
        requires idle { parts.old.called ≡ None }
        requires own { OwnsChildren parts.old self.old }
        ensures wire_name { port.new.wire.ghost_name ≡ port.old.wire.ghost_name }
        ensures events_name { port.new.events.ghost_name ≡ port.old.events.ghost_name }
        ensures comes { Answers W.outside (plain.write (to.Child id) piece.now)
            self.old self.new
            (reach parts.old port.old.wire.now port.old.events.now)
            (reach parts.new port.new.wire.now port.new.events.now)
            result }
        ensures own { OnOk result (OwnsChildren parts.new self.new) }
        ensures idle { parts.new.called ≡ None }
    {
        let Some(child) = self.children.get_mut(id as usize) else {
            return Ok(Wrote::Done);
        };
        child.write(alloc, id, piece, port, parts)
    }

    /// `close` of a child's standard input.
    pub fn close(&mut self, alloc: Global, id: u32, parts: &mut Parts) -> Result<(), Memory>
        requires idle { parts.old.called ≡ None }
        requires own { OwnsChildren parts.old self.old }
        ensures told { OnOk result (Told (plain.close (to.Child id))
            self.old self.new parts.old parts.new) }
        ensures own { OnOk result (OwnsChildren parts.new self.new) }
        ensures idle { parts.new.called ≡ None }
    {
        let Some(child) = self.children.get_mut(id as usize) else {
            return Ok(());
        };
        child.close(alloc, id, parts)
    }

    /// What a drain of a child's standard input does next. `yielded` says that it comes after the bare `yield`.
    pub fn drain(
        &mut self,
        alloc: Global,
        id: u32,
        yielded: bool,
        parts: &mut Parts,
    ) -> Result<Drain, Memory>
        requires idle { parts.old.called ≡ None }
        requires own { OwnsChildren parts.old self.old }
        ensures told { IfOk result (λ next. ToldWith
            (plain.drain yielded (length parts.old.futures) (to.Child id))
            self.old self.new parts.old parts.new next) }
        ensures own { OnOk result (OwnsChildren parts.new self.new) }
        ensures idle { parts.new.called ≡ None }
    {
        let Some(child) = self.children.get_mut(id as usize) else {
            return Ok(Drain::Goes);
        };
        child.drain(alloc, yielded, parts)
    }

    /// New marks of a child's standard input, unless they are refused. It changes nothing of the loop.
    pub fn limits(&mut self, id: u32, high: Option<i64>, low: Option<i64>) -> Limited
        ensures told { (v : View) → ToldWith (plain.limits high low (to.Child id))
            self.old self.new v v result }
        ensures own { (v : View) → OwnsChildren v self.old → OwnsChildren v self.new }
    {
        let Some(child) = self.children.get_mut(id as usize) else {
            return Limited::Set;
        };
        child.limits(high, low)
    }

    /// A wait for a child's exit: the code, or the future that it waits on.
    pub fn wait(&mut self, alloc: Global, id: u32, parts: &mut Parts) -> Result<ChildWait, Memory>
        requires idle { parts.old.called ≡ None }
        requires own { OwnsChildren parts.old self.old }
        ensures told { IfOk result (λ said. ToldWith
            (plain.wait (length parts.old.futures) id)
            self.old self.new parts.old parts.new said) }
        ensures own { OnOk result (OwnsChildren parts.new self.new) }
        ensures idle { parts.new.called ≡ None }
    {
        let Some(child) = self.children.get_mut(id as usize) else {
            return Ok(ChildWait::Code(0));
        };
        child.wait(alloc, parts)
    }

    /// `kill`: nothing is asked after a child's exit, and nothing changes.
    pub fn kill<W: Wire>(&self, alloc: Global, id: u32, port: &mut Port<W>) -> Result<(), Stop>
        ensures wire_name { port.new.wire.ghost_name ≡ port.old.wire.ghost_name }
        ensures events_name { port.new.events.ghost_name ≡ port.old.events.ghost_name }
        ensures comes { (v : View) → Comes W.outside (plain.kill id) self.now self.now
            (reach v port.old.wire.now port.old.events.now)
            (reach v port.new.wire.now port.new.events.now)
            result }
    {
        let Some(child) = self.children.get(id as usize) else {
            return Ok(());
        };
        child.kill(alloc, id, port)
    }
}
