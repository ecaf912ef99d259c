//! Requests that concern more than its standard input alone, or its exit.
ghost use Rattle.std.specs.Prelude.{◌≡◌, None, IfOk, OnOk, length};
ghost use Rattle.model_stream.specs.Children as plain;
ghost use Rattle.aio_exchange.specs.Follows.{Follows, after_of, reach, with_after};
ghost use Rattle.aio_exchange.specs.Tells.{Tells};
ghost use Rattle.aio_task.specs.View.{View};
ghost use Rattle.aio_change.specs.Seen.{seen_changed};
ghost use Rattle.aio_child.specs.Owned.{OwnsChild};

use super::Child;
use aio_base::Memory;
use aio_change::make_future;
use aio_exchange::ask;
use aio_task::Parts;
use aio_wire::{Answer, Call, Port, Stop, Wire};
use model_stream::{ChildWait, Wrote};
use std::alloc::Global;

impl Child {
    /// A piece is written to its standard input, unless it is closing: then the piece is dropped.
    pub fn write<W: Wire>(
        &mut self,
        alloc: Global,
        id: u32,
        piece: &[u8],
        port: &mut Port<W>,
        parts: &mut Parts,
    ) -> Result<Wrote, Stop>
        requires idle { parts.old.called ≡ None }
        ensures wire_name { port.new.wire.ghost_name ≡ port.old.wire.ghost_name }
        ensures events_name { port.new.events.ghost_name ≡ port.old.events.ghost_name }
        ensures follows { Follows W.outside seen_changed
            (plain.write_child id piece.now self.old)
            (reach parts.old port.old.wire.now port.old.events.now)
            (reach parts.new port.new.wire.now port.new.events.now)
            (with_after self.new result) }
        ensures own { OnOk result (OwnsChild parts.old self.old → OwnsChild parts.new self.new) }
        ensures idle { parts.new.called ≡ None }
    {
        if self.is_closing() {
            return Ok(Wrote::Done);
        }
        self.feed(alloc, id, piece, port, parts)
    }

    /// A wait for its exit: the code, or the future that it waits on, with the next number.
    pub fn wait(&mut self, alloc: Global, parts: &mut Parts) -> Result<ChildWait, Memory>
        requires idle { parts.old.called ≡ None }
        ensures tells { IfOk result (λ said. Tells seen_changed
            (plain.wait_child (length parts.old.futures) self.old)
            parts.old parts.new (self.new, said)) }
        ensures own { OnOk result (OwnsChild parts.old self.old → OwnsChild parts.new self.new) }
        ensures idle { parts.new.called ≡ None }
    {
        if let Some(code) = self.code() {
            return Ok(ChildWait::Code(code));
        }
        let future = make_future(alloc, parts)?;
        self.push_wait(future)?;
        Ok(ChildWait::Waits(future))
    }

    /// `kill`: nothing is asked after its exit, and of it and of the loop nothing changes.
    pub fn kill<W: Wire>(&self, alloc: Global, id: u32, port: &mut Port<W>) -> Result<(), Stop>
        ensures wire_name { port.new.wire.ghost_name ≡ port.old.wire.ghost_name }
        ensures events_name { port.new.events.ghost_name ≡ port.old.events.ghost_name }
        ensures follows { (v : View) → Follows W.outside seen_changed (plain.kill id self.now)
            (reach v port.old.wire.now port.old.events.now)
            (reach v port.new.wire.now port.new.events.now)
            (after_of self.now result) }
    {
        if !self.is_running() {
            return Ok(());
        }
        forget_answer(ask(port, alloc, Call::Kill(id))?);
        Ok(())
    }
}

fn forget_answer(_answer: Answer) {}
