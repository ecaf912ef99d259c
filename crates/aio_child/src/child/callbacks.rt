//! Its callbacks that ask nothing.
ghost use Rattle.std.specs.Prelude.{◌≡◌, None, OnOk};
ghost use Rattle.model_stream.specs.Children as plain;
ghost use Rattle.model_stream.specs.Receivers as receivers;
ghost use Rattle.aio_exchange.specs.Tells.{Tells};
ghost use Rattle.aio_change.specs.Seen.{seen_changed};
ghost use Rattle.aio_child.specs.Owned.{OwnsChild};

use super::Child;
use aio_base::{ChildItem, Memory, Outcome, Value};
use aio_task::Parts;
use model_pump::Stream;
use std::alloc::Global;

impl Child {
    /// `childitem`: what it or one of its pipes tells.
    pub fn tell(
        &mut self,
        alloc: Global,
        id: u32,
        item: &ChildItem,
        parts: &mut Parts,
    ) -> Result<(), Memory>
        requires idle { parts.old.called ≡ None }
        requires own { OwnsChild parts.old self.old }
        ensures tells { OnOk result (Tells seen_changed (plain.tell_child id item.now self.old)
            parts.old parts.new self.new) }
        ensures own { OnOk result (OwnsChild parts.new self.new) }
        ensures idle { parts.new.called ≡ None }
    {
        match item {
            ChildItem::Broken => self.break_stdin(alloc, id, parts),
            ChildItem::Out(bytes) => self.tell_piece(alloc, Stream::Out, bytes.items(), parts),
            ChildItem::OutEnd => self.tell_end(Stream::Out, parts),
            ChildItem::Errs(bytes) => self.tell_piece(alloc, Stream::Errs, bytes.items(), parts),
            ChildItem::ErrsEnd => self.tell_end(Stream::Errs, parts),
            ChildItem::Exit(code) => self.exit_with(*code, parts),
        }
    }

    // Its standard input broke: without an exception where nothing was unsent.
    fn break_stdin(&mut self, alloc: Global, id: u32, parts: &mut Parts) -> Result<(), Memory>
        requires idle { parts.old.called ≡ None }
        requires own { OwnsChild parts.old self.old }
        ensures tells { OnOk result (Tells seen_changed (plain.break_stdin id self.old)
            parts.old parts.new self.new) }
        ensures own { OnOk result (OwnsChild parts.new self.new) }
        ensures idle { parts.new.called ≡ None }
    {
        if self.stdin_ended() {
            return Ok(());
        }
        let broken = self.has_unsent();
        self.schedule_loss(alloc, id, broken, parts)
    }

    // A piece of a pipe, which is told nothing where it takes no more.
    fn tell_piece(
        &mut self,
        alloc: Global,
        pipe: Stream,
        piece: &[u8],
        parts: &mut Parts,
    ) -> Result<(), Memory>
        requires idle { parts.old.called ≡ None }
        requires own { OwnsChild parts.old self.old }
        ensures tells { OnOk result (Tells seen_changed
            (plain.told_pipe pipe (receivers.receive piece.now) self.old)
            parts.old parts.new self.new) }
        ensures own { OnOk result (OwnsChild parts.new self.new) }
        ensures idle { parts.new.called ≡ None }
    {
        if !self.takes_more(pipe) {
            return Ok(());
        }
        self.receive(alloc, pipe, piece, parts)
    }

    // The end of a pipe, which is told nothing where it takes no more.
    fn tell_end(&mut self, pipe: Stream, parts: &mut Parts) -> Result<(), Memory>
        requires idle { parts.old.called ≡ None }
        requires own { OwnsChild parts.old self.old }
        ensures tells { OnOk result (Tells seen_changed
            (plain.told_pipe pipe receivers.receive_end self.old)
            parts.old parts.new self.new) }
        ensures own { OnOk result (OwnsChild parts.new self.new) }
        ensures idle { parts.new.called ≡ None }
    {
        if self.takes_more(pipe) {
            self.receive_end(pipe, parts);
        }
        Ok(())
    }

    // The exit: those who wait are told in order.
    fn exit_with(&mut self, code: i64, parts: &mut Parts) -> Result<(), Memory>
        requires idle { parts.old.called ≡ None }
        requires own { OwnsChild parts.old self.old }
        ensures tells { OnOk result (Tells seen_changed (plain.exit_with code self.old)
            parts.old parts.new self.new) }
        ensures own { OnOk result (OwnsChild parts.new self.new) }
        ensures idle { parts.new.called ≡ None }
    {
        if !self.is_running() {
            return Ok(());
        }
        let outcome = Outcome::Value(Value::int(code));
        let told = self.settle_waits(&outcome, parts);
        forget_outcome(outcome);
        told?;
        self.set_code(code);
        Ok(())
    }
}

fn forget_outcome(_outcome: Outcome) {}
