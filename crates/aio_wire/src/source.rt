//! Where bytes come from.
ghost use Rattle.std.specs.Prelude.{◌≡◌, ◌≤◌, IfOk, OnErr};
ghost use Rattle.model_wire.specs.Told.{SourceSeen};
ghost use Rattle.aio_wire.specs.Got.{FitsRead, ReadLeaves};

use aio_base::{Blob, Memory};
use std::alloc::Global;

/// What a read gave.
#[derive(Drop)]
pub enum SourceGot {
    /// The next bytes, at least one.
    Bytes(Blob),
    /// Nothing is left.
    End,
    /// The source failed: its count of faults rose.
    Failed,
}

/// A source of bytes. Source: the library reference, `io.RawIOBase.read`.
pub trait Source {
    /// What is left, where that is told, and how often it failed.
    ghost seen: { Self → SourceSeen };

    /// The next bytes, at most so many. Where it failed, its count rose; the count never falls.
    /// Want of memory changes nothing, and is no failure.
    fn read(&mut self, alloc: Global, max: usize) -> Result<SourceGot, Memory>
        requires { 1 ≤ max }
        ensures size { IfOk result (FitsRead max) }
        ensures left { IfOk result (ReadLeaves (seen self.old) (seen self.new)) }
        ensures monotone { (seen self.old).faults ≤ (seen self.new).faults }
        ensures err { OnErr result (seen self.new ≡ seen self.old) };
}
