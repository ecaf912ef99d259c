//! A receiver.
ghost use Rattle.std.specs.Prelude.{◌≡◌, false, is_some, None, Some, IfOk, IfSome, OnOk, length};
ghost use Rattle.std.specs.Option.{option_copied};
ghost use Rattle.model_stream.specs.Reading as reading;
ghost use Rattle.model_stream.specs.Receivers as plain;
ghost use Rattle.aio_change.specs.Owned.{IsOwnIfAny};
ghost use Rattle.aio_receiver.specs.Bare.{receiver_of};
ghost use Rattle.aio_receiver.specs.Woken.{seen_woken};

mod reads;
mod wakes;

use crate::bare::BareReceiver;
use aio_base::{Blob, Exc, Memory, Outcome, Value};
use aio_reader::{ReadOp, Reader, Taken};
use aio_change::{FutureId, Parts};
use std::alloc::Global;
use std::marker::Model;

/// What a read does next.
pub type StreamGot = model_stream::StreamGot<Blob, Exc>;

/// One look of a read of all: what it takes, which stays with the read, and how the read goes on. It ends where no bytes
/// come.
#[derive(Drop)]
pub struct AllGot {
    pub taken: Blob,
    pub got: StreamGot,
}

/// A reader with the future that a read waits on. Contracts see it as the definitions' `Receiver`.
/// Source: `streams.py`, StreamReader: `_wakeup_waiter`, `_wait_for_data`.
#[derive(Drop)]
pub struct Receiver {
    reader: Reader,
    waiter: Option<FutureId>,
}

impl Model for Receiver {
    ghost use Rattle.model_stream.specs.Receivers as definitions;
    ghost use Rattle.aio_receiver.specs.Code.{coded_receiver};

    ghost Value = { definitions.Receiver };

    ghost coded = { coded_receiver };

    ghost view = { λ r. record { reader = r.reader; waiter = r.waiter } };
}

impl Receiver {
    /// Nothing is held, and nobody waits.
    pub fn new(alloc: Global) -> Receiver
        ensures { result ≡ plain.new_receiver }
    {
        Receiver {
            reader: Reader::new(alloc, 65_536),
            waiter: None,
        }
    }

    /// The same in few bytes, where its reader holds nothing and did not fail, and no read waits.
    pub fn bare(&self) -> Option<BareReceiver>
        ensures { IfSome result (λ bare. receiver_of bare ≡ self.now) }
    {
        if self.is_waiting() {
            return None;
        }
        match self.reader.bare() {
            Some(reader) => Some(BareReceiver { reader }),
            None => None,
        }
    }

    /// The receiver that was bare; takes no memory.
    pub fn of_bare(alloc: Global, bare: BareReceiver) -> Receiver
        ensures { result ≡ receiver_of bare }
    {
        Receiver {
            reader: Reader::of_bare(alloc, bare.reader),
            waiter: None,
        }
    }

    /// Whether it takes more.
    pub fn takes_more(&self) -> bool
        ensures { result ≡ plain.takes_more self.now }
    {
        !self.reader.eof() && !self.reader.paused()
    }

    /// Whether the end came.
    pub fn eof(&self) -> bool
        ensures { result ≡ self.now.reader.eof }
    {
        self.reader.eof()
    }

    /// The exception with which the connection was lost.
    pub fn failed(&self) -> Option<&Exc>
        ensures { option_copied result ≡ self.now.reader.failed }
    {
        self.reader.failed()
    }

    /// Whether a read waits.
    pub fn is_waiting(&self) -> bool
        ensures { result ≡ is_some self.now.waiter }
    {
        self.waiter.is_some()
    }

    /// The task of a read that waits on this future was resumed: it waits no more. Where another waits, or none, nothing
    /// changes.
    pub fn give_up(&mut self, on: FutureId)
        ensures { self.new ≡ plain.give_up_read on self.old }
    {
        if self.waiter == Some(on) {
            self.waiter = None;
        }
    }

    // A piece came to the reader.
    fn feed(&mut self, alloc: Global, piece: &[u8]) -> Result<(), Memory>
        requires { self.old.reader.eof ≡ false }
        ensures { OnOk result (self.new
            ≡ record self.old { reader = reading.feed piece.now self.old.reader }) }
    {
        self.reader.feed(alloc, piece)
    }

    // The end came to the reader.
    fn feed_eof(&mut self)
        ensures { self.new ≡ record self.old { reader = reading.feed_eof self.old.reader } }
    {
        self.reader.feed_eof();
    }

    // The reader is lost.
    fn fail(&mut self, fault: Exc)
        ensures { self.new ≡ record self.old { reader = reading.fail fault self.old.reader } }
    {
        self.reader.fail(fault);
    }

    // The reader takes what an operation asks for.
    fn take(&mut self, alloc: Global, op: &ReadOp) -> Result<Taken, Memory>
        ensures answer { IfOk result
            (λ taken. taken ≡ (reading.take_read op.now self.old.reader).answer) }
        ensures after { OnOk result (self.new ≡ record self.old {
          reader = reading.after_take (reading.take_read op.now self.old.reader) self.old.reader;
        }) }
    {
        self.reader.take(alloc, op)
    }

    // All that is held.
    fn take_all(&mut self, alloc: Global) -> Result<Blob, Memory>
        ensures bytes { IfOk result (λ bytes. bytes ≡ self.old.reader.held) }
        ensures after { OnOk result (self.new ≡ plain.all_taken self.old) }
    {
        self.reader.take_all(alloc)
    }

    // A read waits on this future, and reading resumes.
    fn wait_on(&mut self, future: FutureId)
        ensures { self.new ≡ record self.old {
          reader = reading.resume self.old.reader;
          waiter = Some future;
        } }
    {
        self.reader.resume();
        self.waiter = Some(future);
    }

    // The read that waits, if one does, goes on.
    fn wake(&mut self, parts: &mut Parts)
        requires idle { parts.old.called ≡ None }
        requires own { IsOwnIfAny parts.old self.old.waiter }
        ensures parts { parts.new ≡ seen_woken self.old.waiter parts.old }
        ensures after { self.new ≡ record self.old { waiter = None } }
        ensures idle { parts.new.called ≡ None }
    {
        if let Some(future) = self.waiter.take() {
            let _was_pending = parts.resolve(future, Outcome::Value(Value::nothing()));
        }
    }
}
