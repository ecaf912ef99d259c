//! The files of the file system.
ghost use Rattle.std.specs.Prelude.{◌≡◌, ℕ, ◌<◌, ◌≤◌, List, length, string_bytes, vec_len, IfErr, IfOk, IfSome, IsSomeAnd, OnErr, Option, Some};
ghost use Rattle.std.specs.Io.{ReadsAtMost};
ghost use Rattle.aio_wire.specs.Got.{FitsRead, ReadsAt, ReadLeavesShelf};
ghost use Rattle.aio_wire.specs.Took.{FitsWrite};
ghost use Rattle.aio_wire.specs.Files.{Appends};
ghost use Rattle.aio_edge.specs.Bytes.{Fills, Gives, ReadsFront};
ghost use Rattle.aio_edge.specs.Counts.{counting, Took};
ghost use Rattle.aio_edge.specs.Standing.{StandsAt};

use crate::appended::{Appended, append_to, open_as};
use crate::reading::{Reading, open_at, read_on};
use aio_base::{Blob, Memory};
use aio_wire::{Shelf, SinkTook, SourceGot};
use std::alloc::Global;
use std::{io, rt};

/// The most bytes that one read asks for.
const LONGEST_READ: usize = 65_536;

/// The files of the file system by their paths, as a shelf that tells nothing of what they hold. It has one count of
/// failures for all of them. The file that is appended to stays open until another is; the file that is read, until its
/// end or another place is read.
#[derive(Drop)]
pub struct Files<R: rt::Files> {
    rt: R,
    appended: Option<Appended<R::File>>,
    reading: Option<Reading<R::File>>,
    faults: u64,
}

impl<R: rt::Files> Files<R> {
    /// The files of the system. So far none of their calls failed.
    pub fn new(rt: R) -> Files<R>
        ensures { result.faults ≡ 0 }
    {
        Files {
            rt,
            appended: None,
            reading: None,
            faults: 0,
        }
    }
}

impl<R: rt::Files> Shelf for Files<R> {
    ghost seen = { λ files. counting files.faults };

    /// At most 65,536 bytes are asked of the system at once. Where the place is the one at which the file stands, it is
    /// read on from there; else it is opened anew, which takes memory for its name.
    fn read(
        &mut self,
        alloc: Global,
        name: &str,
        from: u64,
        max: usize,
    ) -> Result<SourceGot, Memory>
        requires { 1 ≤ max }
        ensures size { IfOk result (FitsRead max) }
        ensures bytes { IfOk result (λ got. (held : Option (List ℕ))
            → (counting self.old.faults).file name.now ≡ Some held → ReadsAt held from got) }
        ensures counted { IfOk result (ReadLeavesShelf name.now (counting self.old.faults)
            (counting self.new.faults)) }
        ensures files { (counting self.new.faults).file ≡ (counting self.old.faults).file }
        ensures err { OnErr result (counting self.new.faults ≡ counting self.old.faults) }
        ensures given { IfOk result (λ got. IfSome self.old.reading (λ one.
            StandsAt name.now from (string_bytes one.name) one.at
            → Gives (R.File.Read.remaining one.file) got)) }
    {
        let mut piece = vec![in alloc; 0u8; max.min(LONGEST_READ)]?;
        open_at::<R>(&self.rt, &mut self.reading, alloc, name, from)?;
        let read = read_on(&mut self.reading, name, from, piece.as_mut_slice());
        Ok(self.got(read, piece))
    }

    /// It takes memory for the name of a file that isn't open yet.
    fn append(&mut self, alloc: Global, name: &str, piece: &[u8]) -> Result<SinkTook, Memory>
        ensures size { IfOk result (FitsWrite piece.now) }
        ensures written { IfOk result (Appends name.now piece.now (counting self.old.faults)
            (counting self.new.faults)) }
        ensures err { OnErr result (counting self.new.faults ≡ counting self.old.faults) }
        ensures filled { IfOk result (λ took. IfSome self.old.appended (λ one.
            string_bytes one.name ≡ name.now → IsSomeAnd self.new.appended (λ now.
            Fills (R.File.Write.contents one.file) (R.File.Write.contents now.file)
            piece.now took))) }
    {
        open_as::<R>(&self.rt, &mut self.appended, alloc, name)?;
        let wrote = append_to(&mut self.appended, name, piece);
        Ok(self.took(wrote))
    }
}

impl<R: rt::Files> Files<R> {
    /// What is answered where the system read so: an error is a failure, and no bytes are the end.
    fn got(&mut self, read: io::Result<usize>, mut piece: Vec<u8>) -> SourceGot
        requires { ReadsAtMost read piece.items }
        ensures reading { self.new.reading ≡ self.old.reading }
        ensures given { (left : Option (List ℕ)) → 0 < vec_len piece
            → ReadsFront left read piece.items → Gives left result }
        ensures failed { IfErr read (λ _. result ≡ SourceGot.Failed) }
        ensures size { FitsRead (vec_len piece) result }
        ensures left { (name : List ℕ)
            → ReadLeavesShelf name (counting self.old.faults) (counting self.new.faults) result }
    {
        match read {
            Ok(0) => SourceGot::End,
            Ok(count) => {
                piece.truncate(count);
                SourceGot::Bytes(Blob::of(piece))
            }
            Err(_) => {
                self.faults = self.faults.saturating_add(1);
                SourceGot::Failed
            }
        }
    }

    /// What is answered where the system wrote so: an error is a failure.
    fn took(&mut self, wrote: io::Result<usize>) -> SinkTook
        ensures answered { Took wrote self.old.faults self.new.faults result }
        ensures appended { self.new.appended ≡ self.old.appended }
    {
        match wrote {
            Ok(count) => SinkTook::Took(count),
            Err(_) => {
                self.faults = self.faults.saturating_add(1);
                SinkTook::Failed
            }
        }
    }
}
