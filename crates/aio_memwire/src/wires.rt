//! Wires of which chosen calls fail.
ghost use Rattle.std.specs.Prelude.{◌≡◌, IsOkAnd};
ghost use Rattle.std.specs.Bool.{OnTrue, OnFalse};
ghost use Rattle.aio_memwire.specs.Listed.{fails_next, Counted};
ghost use Rattle.aio_memwire.specs.Passed.{WireAsked};
ghost use Rattle.aio_memwire.specs.Sums.{outside_with};

use crate::fail_at::{FailAt, fails};
use aio_base::Memory;
use aio_wire::{Call, Reply, Wire};
use std::alloc::Global;

impl<I: Wire> Wire for FailAt<I> {
    ghost outside = { outside_with I.outside };

    fn ask(&mut self, alloc: Global, call: &Call) -> Result<Reply, Memory>
        ensures asked { WireAsked (outside_with I.outside) call.now self.old self.new result }
        ensures listed { OnTrue (fails_next self.old)
            (IsOkAnd result (λ reply. reply ≡ Reply.Failed) × (self.new.inner ≡ self.old.inner)) }
        ensures passed { OnFalse (fails_next self.old)
            (WireAsked I.outside call.now self.old.inner self.new.inner result) }
        ensures counted { Counted self.old self.new }
    {
        if fails(self.calls.as_slice(), &mut self.made, &mut self.faults) {
            return Ok(Reply::Failed);
        }
        self.inner.ask(alloc, call)
    }
}
