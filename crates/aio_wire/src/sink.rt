//! Where bytes go.
ghost use Rattle.std.specs.Prelude.{◌≡◌, IfOk, OnErr};
ghost use Rattle.model_wire.specs.Told.{SinkSeen};
ghost use Rattle.aio_wire.specs.Took.{FitsWrite, WriteLeaves};

use aio_base::Memory;
use std::alloc::Global;

/// What a write gave.
#[derive(Clone, Copy, PartialEq, Eq)]
pub enum SinkTook {
    /// So many bytes of the piece's front were taken: at least one of a piece that is not empty.
    Took(usize),
    /// The sink failed, and took nothing: its count of faults rose, or stands at its last value.
    Failed,
}

/// A sink of bytes. Source: the library reference, `io.RawIOBase.write`.
pub trait Sink {
    /// What it took, where that is told, and how often it failed.
    ghost seen: { Self → SinkSeen };

    /// Takes a front of the piece. Where it failed, its count rose. Want of memory changes nothing,
    /// and is no failure.
    fn write(&mut self, alloc: Global, piece: &[u8]) -> Result<SinkTook, Memory>
        ensures size { IfOk result (FitsWrite piece.now) }
        ensures took { IfOk result (WriteLeaves piece.now (seen self.old) (seen self.new)) }
        ensures err { OnErr result (seen self.new ≡ seen self.old) };
}
