//! What its receiving side does alone.
ghost use Rattle.std.specs.Prelude.{◌≡◌, false, None, IfOk, OnOk, length};
ghost use Rattle.model_stream.specs.Connections.{its_receiver};
ghost use Rattle.model_stream.specs.Doing.{asked_on, on};
ghost use Rattle.model_stream.specs.Receivers as receivers;
ghost use Rattle.aio_exchange.specs.Tells.{Tells};
ghost use Rattle.aio_task.specs.View.{View};
ghost use Rattle.aio_change.specs.Seen.{seen_changed};
ghost use Rattle.aio_receiver.specs.Gotten.{all_got};
ghost use Rattle.aio_connection.specs.Owned.{OwnsConnection};

use super::Connection;
use aio_base::{Exc, Memory};
use aio_reader::ReadOp;
use aio_receiver::{AllGot, StreamGot};
use aio_task::{FutureId, Parts};
use std::alloc::Global;

impl Connection {
    // A piece came.
    pub(super) fn receive(
        &mut self,
        alloc: Global,
        piece: &[u8],
        parts: &mut Parts,
    ) -> Result<(), Memory>
        requires idle { parts.old.called ≡ None }
        requires not_ended { self.old.receiver.reader.eof ≡ false }
        requires own { OwnsConnection parts.old self.old }
        ensures tells { OnOk result (Tells seen_changed
            (on its_receiver (receivers.receive piece.now) self.old) parts.old parts.new self.new) }
        ensures own { OnOk result (OwnsConnection parts.new self.new) }
        ensures idle { parts.new.called ≡ None }
    {
        self.receiver.receive(alloc, piece, parts)
    }

    // The end came.
    pub(super) fn receive_end(&mut self, parts: &mut Parts)
        requires idle { parts.old.called ≡ None }
        requires own { OwnsConnection parts.old self.old }
        ensures tells { Tells seen_changed
            (on its_receiver receivers.receive_end self.old) parts.old parts.new self.new }
        ensures own { OwnsConnection parts.new self.new }
        ensures idle { parts.new.called ≡ None }
    {
        self.receiver.receive_end(parts);
    }

    // It is lost: with an exception, or by its end.
    pub(super) fn receive_loss(&mut self, loss: Option<Exc>, parts: &mut Parts)
        requires idle { parts.old.called ≡ None }
        requires own { OwnsConnection parts.old self.old }
        ensures tells { Tells seen_changed
            (on its_receiver (receivers.receive_loss loss) self.old) parts.old parts.new self.new }
        ensures own { OwnsConnection parts.new self.new }
        ensures idle { parts.new.called ≡ None }
    {
        self.receiver.receive_loss(loss, parts);
    }

    /// An operation on what is held, at its start and again at each waking.
    pub fn read(
        &mut self,
        alloc: Global,
        op: &ReadOp,
        parts: &mut Parts,
    ) -> Result<StreamGot, Memory>
        requires idle { parts.old.called ≡ None }
        ensures tells { IfOk result (λ got. Tells seen_changed
            (asked_on its_receiver (receivers.read (length parts.old.futures) op.now) self.old)
            parts.old parts.new (self.new, got)) }
        ensures own { OnOk result
            (OwnsConnection parts.old self.old → OwnsConnection parts.new self.new) }
        ensures idle { parts.new.called ≡ None }
    {
        self.receiver.read(alloc, op, parts)
    }

    /// One look of a read with a negative count, at its start and again at each waking.
    pub fn read_all(&mut self, alloc: Global, parts: &mut Parts) -> Result<AllGot, Memory>
        requires idle { parts.old.called ≡ None }
        ensures tells { IfOk result (λ said. Tells seen_changed
            (asked_on its_receiver (receivers.read_all (length parts.old.futures)) self.old)
            parts.old parts.new (self.new, all_got said)) }
        ensures own { OnOk result
            (OwnsConnection parts.old self.old → OwnsConnection parts.new self.new) }
        ensures idle { parts.new.called ≡ None }
    {
        self.receiver.read_all(alloc, parts)
    }

    /// The task of a read that waits on this future was resumed.
    pub fn give_up(&mut self, on: FutureId)
        ensures after { self.new
            ≡ its_receiver.put (receivers.give_up_read on self.old.receiver) self.old }
        ensures own { (v : View) → OwnsConnection v self.old → OwnsConnection v self.new }
    {
        self.receiver.give_up(on);
    }
}
