//! A shelf in memory.
ghost use Rattle.std.specs.Prelude.{◌≡◌, ◌≤◌, [], Some, length, IfOk, OnOk, OnErr};
ghost use Rattle.std.specs.Option.{option_copied};
ghost use Rattle.aio_wire.specs.Shelved.{held, files_of, got_at, missed_by, seen_of, with_appended};

use crate::shelf::Shelf;
use crate::sink::SinkTook;
use crate::source::SourceGot;
use crate::window::bytes_at;
use aio_base::Memory;
use indexmap::IndexMap;
use std::alloc::{AllocError, Global};
use std::marker::Model;

/// A shelf that keeps its files in memory. It gives at each read as many bytes as are asked for and
/// are left, and takes all of each piece. Its count of faults is the number of its reads of a
/// missing file; it never fails otherwise. Contracts see its files by name and that count.
#[derive(Drop)]
pub struct MemShelf {
    files: IndexMap<String, Vec<u8>>,
    missed: u64,
}

impl Model for MemShelf {
    ghost use Rattle.aio_wire.specs.Shelved.{Shelved, files_of};

    ghost Value = { Shelved };

    ghost view = { λ shelf.
        record { files = files_of shelf.files.entries; missed = shelf.missed } };
}

impl MemShelf {
    /// A shelf with no file.
    pub fn new(alloc: Global) -> MemShelf
        ensures { result ≡ record { files = []; missed = 0 } }
    {
        MemShelf {
            files: IndexMap::new(alloc),
            missed: 0,
        }
    }

    /// What a file holds, and `None` exactly where there is no such file.
    pub fn file(&self, name: &str) -> Option<&[u8]>
        ensures { option_copied result ≡ held self.now name.now }
    {
        let bytes = self.files.get(name)?;
        Some(bytes.as_slice())
    }
}

impl Shelf for MemShelf {
    ghost seen = { seen_of };

    fn read(
        &mut self,
        alloc: Global,
        name: &str,
        from: u64,
        max: usize,
    ) -> Result<SourceGot, Memory>
        ensures next { IfOk result (λ got. got ≡ got_at (held self.old name.now) from max) }
        ensures after { self.new
            ≡ record self.old { missed = missed_by (held self.old name.now) self.old.missed } }
        ensures unchanged { OnErr result (self.new ≡ self.old) }
        ensures monotone { self.old.missed ≤ self.new.missed }
    {
        match self.file(name) {
            Some(bytes) => bytes_at(alloc, bytes, from as usize, max),
            None => {
                self.missed = self.missed.saturating_add(1);
                Ok(SourceGot::Failed)
            }
        }
    }

    fn append(&mut self, alloc: Global, name: &str, piece: &[u8]) -> Result<SinkTook, Memory>
        ensures whole { IfOk result (λ took. took ≡ SinkTook.Took (length piece.now)) }
        ensures after { OnOk result (self.new
            ≡ record self.old { files = with_appended self.old.files name.now piece.now }) }
        ensures unchanged { OnErr result (self.new ≡ self.old) }
        ensures monotone { self.old.missed ≤ self.new.missed }
    {
        append_piece(&mut self.files, alloc, name, piece)?;
        Ok(SinkTook::Took(piece.len()))
    }
}

// Puts a piece behind the end of a file, which is made where it is missing.
fn append_piece(
    files: &mut IndexMap<String, Vec<u8>>,
    alloc: Global,
    name: &str,
    piece: &[u8],
) -> Result<(), AllocError>
    ensures ok { OnOk result (files_of files.new.entries
        ≡ with_appended (files_of files.old.entries) name.now piece.now) }
    ensures err { OnErr result (files_of files.new.entries ≡ files_of files.old.entries) }
{
    match files.get_mut(name) {
        Some(bytes) => bytes.extend_from_slice(piece),
        None => {
            let key = String::from_str(alloc, name)?;
            let bytes = Vec::from_slice(alloc, piece)?;
            files.insert(key, bytes)?;
            Ok(())
        }
    }
}
