//! Sources and shelves of which chosen calls fail.
ghost use Rattle.std.specs.Prelude.{◌≡◌, ◌≤◌, IsOkAnd};
ghost use Rattle.std.specs.Bool.{OnTrue, OnFalse};
ghost use Rattle.aio_memwire.specs.Listed.{fails_next, Counted};
ghost use Rattle.aio_memwire.specs.Passed.{SourceRead, FileRead, FileGiven};
ghost use Rattle.aio_memwire.specs.Sums.{source_with, shelf_with};

use crate::fail_at::{FailAt, fails};
use aio_base::Memory;
use aio_wire::{Shelf, SinkTook, Source, SourceGot};
use std::alloc::Global;

impl<I: Source> Source for FailAt<I> {
    ghost seen = { λ source. source_with source.faults (I.seen source.inner) };

    fn read(&mut self, alloc: Global, max: usize) -> Result<SourceGot, Memory>
        requires { 1 ≤ max }
        ensures read { SourceRead max (source_with self.old.faults (I.seen self.old.inner))
            (source_with self.new.faults (I.seen self.new.inner)) result }
        ensures listed { OnTrue (fails_next self.old)
            (IsOkAnd result (λ got. got ≡ SourceGot.Failed) × (self.new.inner ≡ self.old.inner)) }
        ensures passed { OnFalse (fails_next self.old)
            (SourceRead max (I.seen self.old.inner) (I.seen self.new.inner) result) }
        ensures counted { Counted self.old self.new }
    {
        if fails(self.calls.as_slice(), &mut self.made, &mut self.faults) {
            return Ok(SourceGot::Failed);
        }
        self.inner.read(alloc, max)
    }
}

impl<I: Shelf> Shelf for FailAt<I> {
    ghost seen = { λ shelf. shelf_with shelf.faults (I.seen shelf.inner) };

    fn read(
        &mut self,
        alloc: Global,
        name: &str,
        from: u64,
        max: usize,
    ) -> Result<SourceGot, Memory>
        requires { 1 ≤ max }
        ensures read { FileRead name.now from max
            (shelf_with self.old.faults (I.seen self.old.inner))
            (shelf_with self.new.faults (I.seen self.new.inner)) result }
        ensures listed { OnTrue (fails_next self.old)
            (IsOkAnd result (λ got. got ≡ SourceGot.Failed) × (self.new.inner ≡ self.old.inner)) }
        ensures passed { OnFalse (fails_next self.old)
            (FileRead name.now from max (I.seen self.old.inner) (I.seen self.new.inner) result) }
        ensures counted { Counted self.old self.new }
    {
        if fails(self.calls.as_slice(), &mut self.made, &mut self.faults) {
            return Ok(SourceGot::Failed);
        }
        self.inner.read(alloc, name, from, max)
    }

    fn append(&mut self, alloc: Global, name: &str, piece: &[u8]) -> Result<SinkTook, Memory>
        ensures given { FileGiven name.now piece.now
            (shelf_with self.old.faults (I.seen self.old.inner))
            (shelf_with self.new.faults (I.seen self.new.inner)) result }
        ensures listed { OnTrue (fails_next self.old)
            (IsOkAnd result (λ took. took ≡ SinkTook.Failed) × (self.new.inner ≡ self.old.inner)) }
        ensures passed { OnFalse (fails_next self.old)
            (FileGiven name.now piece.now (I.seen self.old.inner) (I.seen self.new.inner) result) }
        ensures counted { Counted self.old self.new }
    {
        if fails(self.calls.as_slice(), &mut self.made, &mut self.faults) {
            return Ok(SinkTook::Failed);
        }
        self.inner.append(alloc, name, piece)
    }
}
