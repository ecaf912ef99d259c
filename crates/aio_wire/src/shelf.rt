//! Files by name.
ghost use Rattle.std.specs.Prelude.{◌≡◌, ◌≤◌, ℕ, List, Option, Some, IfOk, OnErr};
ghost use Rattle.model_wire.specs.Told.{ShelfSeen};
ghost use Rattle.aio_wire.specs.Got.{FitsRead, ReadsAt, ReadLeavesShelf};
ghost use Rattle.aio_wire.specs.Took.{FitsWrite};
ghost use Rattle.aio_wire.specs.Files.{Appends};

use crate::sink::SinkTook;
use crate::source::SourceGot;
use aio_base::Memory;
use std::alloc::Global;

/// A shelf of files. Source: the library reference, `open` with the modes `rb` and `ab`.
pub trait Shelf {
    /// What its files hold, where that is told, and how often a call on each of them failed.
    ghost seen: { Self → ShelfSeen };

    /// The bytes of a file from a place on, at most so many. A missing file is a failure. Where it
    /// failed, the file's count rose. No file changes. Want of memory is no failure.
    fn read(
        &mut self,
        alloc: Global,
        name: &str,
        from: u64,
        max: usize,
    ) -> Result<SourceGot, Memory>
        requires { 1 ≤ max }
        ensures size { IfOk result (FitsRead max) }
        ensures bytes { IfOk result (λ got. (held : Option (List ℕ))
            → (seen self.old).file name.now ≡ Some held → ReadsAt held from got) }
        ensures counted { IfOk result (ReadLeavesShelf name.now (seen self.old) (seen self.new)) }
        ensures files { (seen self.new).file ≡ (seen self.old).file }
        ensures err { OnErr result (seen self.new ≡ seen self.old) };

    /// Takes a front of the piece behind a file's end. A missing file is made. Where it failed, the
    /// file's count rose. Want of memory changes nothing, and is no failure.
    fn append(&mut self, alloc: Global, name: &str, piece: &[u8]) -> Result<SinkTook, Memory>
        ensures size { IfOk result (FitsWrite piece.now) }
        ensures written { IfOk result (Appends name.now piece.now (seen self.old) (seen self.new)) }
        ensures err { OnErr result (seen self.new ≡ seen self.old) };
}
