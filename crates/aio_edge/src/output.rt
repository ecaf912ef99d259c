//! The standard output.
ghost use Rattle.std.specs.Prelude.{◌≡◌, ◌<◌, length, None, IfOk, OnErr};
ghost use Rattle.std.specs.Io.{WritesAtMost};
ghost use Rattle.std.specs.Io.KnownBytes.{WriteAppends};
ghost use Rattle.aio_wire.specs.Took.{FitsWrite, WriteLeaves};
ghost use Rattle.aio_edge.specs.Bytes.{Fills};
ghost use Rattle.aio_edge.specs.Counts.{Took, untaken};

use crate::room::{OUTPUT, end_of, expect_place, wait_for_room};
use crate::writing::write_front;
use aio_base::Memory;
use aio_wire::{Sink, SinkTook};
use std::alloc::Global;
use std::io;
use std::io::{ErrorKind, Write};

/// A runtime's standard output as a writer: each write is one of the system. What it holds is told to nobody.
#[derive(Drop)]
pub struct Printing<R> {
    rt: R,
}

impl<R: Print> Write for Printing<R> {
    fn write(&mut self, bytes: &[u8]) -> io::Result<usize> {
        self.rt.write_some(bytes)
    }

    fn flush(&mut self) -> io::Result<()> {
        Ok(())
    }
}

/// The standard output as a sink that tells nothing of what it took. Each piece goes to the system at once, so nothing
/// waits in a buffer. Where whoever started this program has the output answer at once, a write waits for room.
#[derive(Drop)]
pub struct Output<W> {
    out: W,
    faults: u64,
}

impl<R: Print> Output<Printing<R>> {
    /// The standard output. So far none of its calls failed.
    pub fn new(rt: R) -> Output<Printing<R>>
        ensures { result.faults ≡ 0 }
    {
        Output {
            out: Printing { rt },
            faults: 0,
        }
    }
}

impl<W: Write> Sink for Output<W> {
    ghost seen = { λ output. untaken output.faults };

    fn write(&mut self, _alloc: Global, piece: &[u8]) -> Result<SinkTook, Memory>
        ensures size { IfOk result (FitsWrite piece.now) }
        ensures took { IfOk result (WriteLeaves piece.now (untaken self.old.faults)
            (untaken self.new.faults)) }
        ensures filled { IfOk result
            (Fills (W.contents self.old.out) (W.contents self.new.out) piece.now) }
        ensures unchanged { OnErr result (self.new ≡ self.old) }
    {
        let wrote = write_some(&mut self.out, piece);
        Ok(self.took(wrote))
    }
}

impl<W> Output<W> {
    /// What is answered where the system wrote so: an error is a failure.
    fn took(&mut self, wrote: io::Result<usize>) -> SinkTook
        ensures answered { Took wrote self.old.faults self.new.faults result }
        ensures out { self.new.out ≡ self.old.out }
    {
        match wrote {
            Ok(count) => SinkTook::Took(count),
            Err(_) => {
                self.faults = self.faults.saturating_add(1);
                SinkTook::Failed
            }
        }
    }
}

/// Writes a front of the piece, and says how many bytes went. Where the output takes none for now it waits for room; a file
/// that may not grow is not written.
fn write_some<W: Write>(out: &mut W, piece: &[u8]) -> io::Result<usize>
    ensures bound { WritesAtMost result piece.now }
    ensures some { IfOk result (λ count. 0 < length piece.now → 0 < count) }
    ensures bytes { WriteAppends (W.contents out.old) (W.contents out.new) result piece.now }
{
    if piece.is_empty() {
        return Ok(0);
    }
    expect_place(end_of(OUTPUT))?;
    for _ in 0..u64::MAX {
        match write_front(out, piece) {
            Err(error) if error.kind() == ErrorKind::WouldBlock => wait_for_room(OUTPUT)?,
            written => return written,
        }
    }
    Err(io::Error::from(ErrorKind::Interrupted))
}
