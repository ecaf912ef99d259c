//! What its standard input does alone.
ghost use Rattle.std.specs.Prelude.{◌≡◌, None, IfOk, OnOk, length};
ghost use Rattle.model_stream.specs.Children as plain;
ghost use Rattle.model_stream.specs.Children.{inlet, its_stdin};
ghost use Rattle.model_stream.specs.Doing.{Ends, asked_on, on};
ghost use Rattle.model_stream.specs.Senders as senders;
ghost use Rattle.aio_exchange.specs.Follows.{Follows, after_of, reach, with_after};
ghost use Rattle.aio_exchange.specs.Tells.{Tells};
ghost use Rattle.aio_task.specs.View.{View};
ghost use Rattle.aio_change.specs.Seen.{seen_changed};
ghost use Rattle.aio_child.specs.Owned.{OwnsChild};

use super::Child;
use aio_base::Memory;
use aio_flow::Limited;
use aio_sender::Drain;
use aio_task::Parts;
use aio_wire::{Port, Stop, Wire};
use model_stream::Wrote;
use model_wire::Handed;
use std::alloc::Global;

impl Child {
    // A piece is written. Where nothing was unsent it is offered at once.
    pub(super) fn feed<W: Wire>(
        &mut self,
        alloc: Global,
        id: u32,
        piece: &[u8],
        port: &mut Port<W>,
        parts: &mut Parts,
    ) -> Result<Wrote, Stop>
        requires idle { parts.old.called ≡ None }
        ensures wire_name { port.new.wire.ghost_name ≡ port.old.wire.ghost_name }
        ensures events_name { port.new.events.ghost_name ≡ port.old.events.ghost_name }
        ensures follows { Follows W.outside seen_changed
            (asked_on its_stdin (senders.write (inlet id) piece.now) self.old)
            (reach parts.old port.old.wire.now port.old.events.now)
            (reach parts.new port.new.wire.now port.new.events.now)
            (with_after self.new result) }
        ensures own { OnOk result (OwnsChild parts.old self.old → OwnsChild parts.new self.new) }
        ensures idle { parts.new.called ≡ None }
    {
        self.stdin
            .write(alloc, Handed::Child(id), piece, port, parts)
    }

    // More is sent.
    pub(super) fn send_more<W: Wire>(
        &mut self,
        alloc: Global,
        id: u32,
        port: &mut Port<W>,
        parts: &mut Parts,
    ) -> Result<(), Stop>
        requires idle { parts.old.called ≡ None }
        requires own { OwnsChild parts.old self.old }
        ensures wire_name { port.new.wire.ghost_name ≡ port.old.wire.ghost_name }
        ensures events_name { port.new.events.ghost_name ≡ port.old.events.ghost_name }
        ensures follows { Follows W.outside seen_changed
            (on its_stdin (senders.send_more (inlet id)) self.old)
            (reach parts.old port.old.wire.now port.old.events.now)
            (reach parts.new port.new.wire.now port.new.events.now)
            (after_of self.new result) }
        ensures own { OnOk result (OwnsChild parts.new self.new) }
        ensures idle { parts.new.called ≡ None }
    {
        self.stdin.send_more(alloc, Handed::Child(id), port, parts)
    }

    /// `lost`: the loss of its standard input is done.
    pub fn lose<W: Wire>(
        &mut self,
        alloc: Global,
        id: u32,
        broken: bool,
        port: &mut Port<W>,
        parts: &mut Parts,
    ) -> Result<(), Stop>
        requires idle { parts.old.called ≡ None }
        requires own { OwnsChild parts.old self.old }
        ensures wire_name { port.new.wire.ghost_name ≡ port.old.wire.ghost_name }
        ensures events_name { port.new.events.ghost_name ≡ port.old.events.ghost_name }
        ensures follows { Follows W.outside seen_changed
            (plain.lose_child id broken self.old)
            (reach parts.old port.old.wire.now port.old.events.now)
            (reach parts.new port.new.wire.now port.new.events.now)
            (after_of self.new result) }
        ensures own { OnOk result (OwnsChild parts.new self.new) }
        ensures idle { parts.new.called ≡ None }
    {
        self.stdin
            .lose(alloc, Handed::Child(id), broken, port, parts)
    }

    // Its loss is scheduled.
    pub(super) fn schedule_loss(
        &mut self,
        alloc: Global,
        id: u32,
        broken: bool,
        parts: &mut Parts,
    ) -> Result<(), Memory>
        requires idle { parts.old.called ≡ None }
        ensures tells { OnOk result (Tells seen_changed
            (on its_stdin (senders.schedule_loss (inlet id) broken) self.old)
            parts.old parts.new self.new) }
        ensures own { OnOk result (OwnsChild parts.old self.old → OwnsChild parts.new self.new) }
        ensures idle { parts.new.called ≡ None }
    {
        self.stdin
            .schedule_loss(alloc, Handed::Child(id), broken, parts)
    }

    /// Closing its standard input waits for what is unsent; a closing one is closed no more.
    pub fn close(&mut self, alloc: Global, id: u32, parts: &mut Parts) -> Result<(), Memory>
        requires idle { parts.old.called ≡ None }
        ensures tells { OnOk result (Tells seen_changed (plain.close_child id self.old)
            parts.old parts.new self.new) }
        ensures own { OnOk result (OwnsChild parts.old self.old → OwnsChild parts.new self.new) }
        ensures idle { parts.new.called ≡ None }
    {
        self.stdin.close(alloc, Handed::Child(id), parts)
    }

    /// What a drain does next. `yielded` says that it comes after the bare `yield`.
    pub fn drain(
        &mut self,
        alloc: Global,
        yielded: bool,
        parts: &mut Parts,
    ) -> Result<Drain, Memory>
        requires idle { parts.old.called ≡ None }
        ensures tells { IfOk result (λ next. Tells seen_changed
            (plain.drain_child yielded (length parts.old.futures) self.old)
            parts.old parts.new (self.new, next)) }
        ensures own { OnOk result (OwnsChild parts.old self.old → OwnsChild parts.new self.new) }
        ensures idle { parts.new.called ≡ None }
    {
        self.stdin.drain(alloc, yielded, parts)
    }

    /// New marks, unless they are refused. It changes no futures.
    pub fn limits(&mut self, high: Option<i64>, low: Option<i64>) -> Limited
        ensures is { plain.limits_child high low self.old ≡ Ends (self.new, result) }
        ensures frame { self.new ≡ record self.old {
          stdin = senders.with_writer self.new.stdin.writer self.old.stdin;
        } }
        ensures own { (v : View) → OwnsChild v self.old → OwnsChild v self.new }
    {
        self.stdin.limits(high, low)
    }
}
