//! Reading the front of a shelf's file.
ghost use Rattle.std.specs.Prelude.{◌≡◌, ◌≤◌, IfOk, IfErr, OnOk};
ghost use Rattle.aio_memwire.specs.Reading.{IsFront, StopsReading};
ghost use Rattle.aio_memwire.specs.declared.reading.ReadFault.TheVariants.{Memory as OutOfMemory};

use aio_base::Memory;
use aio_wire::{Shelf, SourceGot};
use std::alloc::{AllocError, Global};

/// Why a file could not be read.
#[derive(Clone, Copy, PartialEq, Eq)]
pub enum ReadFault {
    Memory,
    /// The shelf failed.
    Failed,
}

impl From<Memory> for ReadFault {
    ghost from_gives = { λ _ fault. fault ≡ OutOfMemory };

    fn from(_cause: Memory) -> ReadFault {
        ReadFault::Memory
    }
}

impl From<AllocError> for ReadFault {
    ghost from_gives = { λ _ fault. fault ≡ OutOfMemory };

    fn from(_cause: AllocError) -> ReadFault {
        ReadFault::Memory
    }
}

/// A file's first bytes, at most `limit`, and all of them where it has no more. Each read asks for
/// `limit` bytes, until the end comes or so many came. A missing file is a failure. No file changes.
pub fn read_front<F: Shelf>(
    alloc: Global,
    shelf: &mut F,
    name: &str,
    limit: usize,
) -> Result<Vec<u8>, ReadFault>
    requires some { 1 ≤ limit }
    ensures text { IfOk result (λ text.
        IsFront limit ((F.seen shelf.old).file name.now) text.items) }
    ensures kept { OnOk result (F.seen shelf.new ≡ F.seen shelf.old) }
    ensures fault { IfErr result (StopsReading name.now (F.seen shelf.old) (F.seen shelf.new)) }
    ensures files { (F.seen shelf.new).file ≡ (F.seen shelf.old).file }
{
    let mut text = Vec::new(alloc);
    while text.len() < limit {
        match shelf.read(alloc, name, text.len() as u64, limit)? {
            SourceGot::Bytes(bytes) => text.extend_from_slice(bytes.items())?,
            SourceGot::End => return Ok(text),
            SourceGot::Failed => return Err(ReadFault::Failed),
        }
    }
    text.truncate(limit);
    Ok(text)
}
