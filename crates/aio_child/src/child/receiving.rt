//! What a pipe that it writes does alone.
ghost use Rattle.std.specs.Prelude.{◌≡◌, false, None, IfOk, OnOk, length};
ghost use Rattle.model_stream.specs.Children.{its_pipe};
ghost use Rattle.model_stream.specs.Doing.{asked_on, on};
ghost use Rattle.model_stream.specs.Receivers as receivers;
ghost use Rattle.aio_exchange.specs.Tells.{Tells};
ghost use Rattle.aio_task.specs.View.{View};
ghost use Rattle.aio_change.specs.Seen.{seen_changed};
ghost use Rattle.aio_receiver.specs.Gotten.{all_got};
ghost use Rattle.aio_child.specs.Owned.{OwnsChild};

use super::Child;
use aio_base::Memory;
use aio_reader::ReadOp;
use aio_receiver::{AllGot, StreamGot};
use aio_task::{FutureId, Parts};
use model_pump::Stream;
use std::alloc::Global;

impl Child {
    // A piece came.
    pub(super) fn receive(
        &mut self,
        alloc: Global,
        pipe: Stream,
        piece: &[u8],
        parts: &mut Parts,
    ) -> Result<(), Memory>
        requires idle { parts.old.called ≡ None }
        requires not_ended { ((its_pipe pipe).get self.old).reader.eof ≡ false }
        requires own { OwnsChild parts.old self.old }
        ensures tells { OnOk result (Tells seen_changed
            (on (its_pipe pipe) (receivers.receive piece.now) self.old)
            parts.old parts.new self.new) }
        ensures own { OnOk result (OwnsChild parts.new self.new) }
        ensures idle { parts.new.called ≡ None }
    {
        match pipe {
            Stream::Out => self.out.receive(alloc, piece, parts),
            Stream::Errs => self.errs.receive(alloc, piece, parts),
        }
    }

    // The end came.
    pub(super) fn receive_end(&mut self, pipe: Stream, parts: &mut Parts)
        requires idle { parts.old.called ≡ None }
        requires own { OwnsChild parts.old self.old }
        ensures tells { Tells seen_changed
            (on (its_pipe pipe) receivers.receive_end self.old) parts.old parts.new self.new }
        ensures own { OwnsChild parts.new self.new }
        ensures idle { parts.new.called ≡ None }
    {
        match pipe {
            Stream::Out => self.out.receive_end(parts),
            Stream::Errs => self.errs.receive_end(parts),
        }
    }

    /// An operation on what a pipe holds, at its start and again at each waking.
    pub fn read(
        &mut self,
        alloc: Global,
        pipe: Stream,
        op: &ReadOp,
        parts: &mut Parts,
    ) -> Result<StreamGot, Memory>
        requires idle { parts.old.called ≡ None }
        ensures tells { IfOk result (λ got. Tells seen_changed
            (asked_on (its_pipe pipe) (receivers.read (length parts.old.futures) op.now) self.old)
            parts.old parts.new (self.new, got)) }
        ensures own { OnOk result (OwnsChild parts.old self.old → OwnsChild parts.new self.new) }
        ensures idle { parts.new.called ≡ None }
    {
        match pipe {
            Stream::Out => self.out.read(alloc, op, parts),
            Stream::Errs => self.errs.read(alloc, op, parts),
        }
    }

    /// One look of a read with a negative count, at its start and again at each waking.
    pub fn read_all(
        &mut self,
        alloc: Global,
        pipe: Stream,
        parts: &mut Parts,
    ) -> Result<AllGot, Memory>
        requires idle { parts.old.called ≡ None }
        ensures tells { IfOk result (λ said. Tells seen_changed
            (asked_on (its_pipe pipe) (receivers.read_all (length parts.old.futures)) self.old)
            parts.old parts.new (self.new, all_got said)) }
        ensures own { OnOk result (OwnsChild parts.old self.old → OwnsChild parts.new self.new) }
        ensures idle { parts.new.called ≡ None }
    {
        match pipe {
            Stream::Out => self.out.read_all(alloc, parts),
            Stream::Errs => self.errs.read_all(alloc, parts),
        }
    }

    /// The task of a read of a pipe that waits on this future was resumed.
    pub fn give_up(&mut self, pipe: Stream, on: FutureId)
        ensures after { self.new ≡ (its_pipe pipe).put
            (receivers.give_up_read on ((its_pipe pipe).get self.old)) self.old }
        ensures own { (v : View) → OwnsChild v self.old → OwnsChild v self.new }
    {
        match pipe {
            Stream::Out => self.out.give_up(on),
            Stream::Errs => self.errs.give_up(on),
        }
    }
}
