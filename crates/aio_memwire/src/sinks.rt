//! Sinks of which chosen calls fail.
ghost use Rattle.std.specs.Prelude.{◌≡◌, IsOkAnd};
ghost use Rattle.std.specs.Bool.{OnTrue, OnFalse};
ghost use Rattle.aio_memwire.specs.Listed.{fails_next, Counted};
ghost use Rattle.aio_memwire.specs.Passed.{SinkGiven};
ghost use Rattle.aio_memwire.specs.Sums.{sink_with};

use crate::fail_at::{FailAt, fails};
use aio_base::Memory;
use aio_wire::{Sink, SinkTook};
use std::alloc::Global;

impl<I: Sink> Sink for FailAt<I> {
    ghost seen = { λ sink. sink_with sink.faults (I.seen sink.inner) };

    fn write(&mut self, alloc: Global, piece: &[u8]) -> Result<SinkTook, Memory>
        ensures given { SinkGiven piece.now (sink_with self.old.faults (I.seen self.old.inner))
            (sink_with self.new.faults (I.seen self.new.inner)) result }
        ensures listed { OnTrue (fails_next self.old)
            (IsOkAnd result (λ took. took ≡ SinkTook.Failed) × (self.new.inner ≡ self.old.inner)) }
        ensures passed { OnFalse (fails_next self.old)
            (SinkGiven piece.now (I.seen self.old.inner) (I.seen self.new.inner) result) }
        ensures counted { Counted self.old self.new }
    {
        if fails(self.calls.as_slice(), &mut self.made, &mut self.faults) {
            return Ok(SinkTook::Failed);
        }
        self.inner.write(alloc, piece)
    }
}
