//! What comes wakes the read that waits, which then looks again.
ghost use Rattle.std.specs.Prelude.{◌≡◌, false, None, OnOk};
ghost use Rattle.model_stream.specs.Receivers as plain;
ghost use Rattle.aio_exchange.specs.Tells.{Tells};
ghost use Rattle.aio_change.specs.Owned.{IsOwnIfAny};
ghost use Rattle.aio_change.specs.Seen.{seen_changed};

use super::Receiver;
use aio_base::{Exc, Memory};
use aio_change::Parts;
use std::alloc::Global;

impl Receiver {
    /// A piece came.
    pub fn receive(&mut self, alloc: Global, piece: &[u8], parts: &mut Parts) -> Result<(), Memory>
        requires idle { parts.old.called ≡ None }
        requires not_ended { self.old.reader.eof ≡ false }
        requires own { IsOwnIfAny parts.old self.old.waiter }
        ensures tells { OnOk result (Tells seen_changed (plain.receive piece.now self.old)
            parts.old parts.new self.new) }
        ensures nobody { OnOk result (self.new.waiter ≡ None) }
        ensures idle { parts.new.called ≡ None }
    {
        self.feed(alloc, piece)?;
        self.wake(parts);
        Ok(())
    }

    /// The end came.
    pub fn receive_end(&mut self, parts: &mut Parts)
        requires idle { parts.old.called ≡ None }
        requires own { IsOwnIfAny parts.old self.old.waiter }
        ensures tells { Tells seen_changed (plain.receive_end self.old)
            parts.old parts.new self.new }
        ensures nobody { self.new.waiter ≡ None }
        ensures idle { parts.new.called ≡ None }
    {
        self.feed_eof();
        self.wake(parts);
    }

    /// The connection is lost: with an exception, or by its end.
    pub fn receive_loss(&mut self, loss: Option<Exc>, parts: &mut Parts)
        requires idle { parts.old.called ≡ None }
        requires own { IsOwnIfAny parts.old self.old.waiter }
        ensures tells { Tells seen_changed (plain.receive_loss loss self.old)
            parts.old parts.new self.new }
        ensures nobody { self.new.waiter ≡ None }
        ensures idle { parts.new.called ≡ None }
    {
        match loss {
            None => self.receive_end(parts),
            Some(fault) => {
                self.fail(fault);
                self.wake(parts);
            }
        }
    }
}
