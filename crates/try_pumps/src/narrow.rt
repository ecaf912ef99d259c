//! A sink that takes few bytes a write.

use aio_base::Memory;
use aio_wire::{MemSink, Sink, SinkTook};
use std::alloc::Global;

/// Hands at most so many bytes of each piece on, one at least, and takes no more of it.
#[derive(Drop)]
pub struct Narrow {
    pub inner: MemSink,
    pub width: usize,
}

impl Sink for Narrow {
    ghost use Rattle.std.specs.Prelude.{Some};

    ghost seen = { λ sink. record { taken = Some sink.inner; faults = 0 } };

    fn write(&mut self, alloc: Global, piece: &[u8]) -> Result<SinkTook, Memory> {
        self.inner
            .write(alloc, &piece[..piece.len().min(self.width.max(1))])
    }
}
