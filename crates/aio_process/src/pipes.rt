//! A child's pipes, each with a count of the system's failures.
ghost use Rattle.std.specs.Prelude.{◌≡◌, ◌≤◌, ◌<◌, length, vec_len, IfOk, OnErr};
ghost use Rattle.std.specs.Io.{ReadsAtMost, WritesAtMost};
ghost use Rattle.std.specs.Io.KnownBytes.{Keeps, ReadConsumes, WriteAppends};
ghost use Rattle.aio_wire.specs.Got.{FitsRead, ReadLeaves};
ghost use Rattle.aio_wire.specs.Took.{FitsWrite, WriteLeaves};
ghost use Rattle.aio_process.specs.Counts.{untold, untaken};
ghost use Rattle.aio_process.specs.Pipes.{Got, Took, Drains, Fills};

use crate::process::Process;
use crate::readiness::{expect_reader, wait_for_bytes, wait_for_room};
use aio_base::{Blob, Memory};
use aio_wire::{Sink, SinkTook, Source, SourceGot};
use std::alloc::Global;
use std::io;
use std::io::{ErrorKind, Read, Write};
use std::os::fd::AsRawFd;
use std::sync::Arc;

/// The most bytes that one write takes: so many go into a pipe that takes some, and nobody waits.
const MOST_BYTES: usize = 4_096;

/// A pipe that a child writes. It tells nothing of what comes. A read that waits fails once the child is left.
/// Source: `unix_events.py`, `_UnixReadPipeTransport`.
#[derive(Drop)]
pub struct PipeSource<P> {
    pipe: P,
    process: Arc<Process, Global>,
    faults: u64,
}

impl<P> PipeSource<P> {
    /// What a process writes into this pipe, from its first byte.
    pub fn make(pipe: P, process: Arc<Process, Global>) -> PipeSource<P> {
        PipeSource {
            pipe,
            process,
            faults: 0,
        }
    }

    /// Closes the pipe, and then has whoever waits for the child look again: it may have ended.
    pub fn close(self)
    where
        P: Drop,
    {
        let PipeSource {
            pipe,
            process,
            faults: _,
        } = self;
        drop(pipe);
        process.stir();
    }

    // What is answered where the system read so: an error is a failure, and no bytes are the end.
    #[tactic(auto, using(crate::proofs::Bytes::got_some))]
    fn got(&mut self, read: io::Result<usize>, mut piece: Vec<u8>) -> SourceGot
        requires { ReadsAtMost read piece.items }
        ensures size { FitsRead (vec_len piece) result }
        ensures left { ReadLeaves (untold self.old.faults) (untold self.new.faults) result }
        ensures monotone { self.old.faults ≤ self.new.faults }
        ensures answered { Got read piece.items self.old.faults self.new.faults result }
        ensures pipe { self.new.pipe ≡ self.old.pipe }
    {
        match read {
            Ok(0) => SourceGot::End,
            Ok(count) => {
                piece.truncate(count);
                SourceGot::Bytes(Blob::of(piece))
            }
            Err(_) => {
                self.faults = self.faults.saturating_add(1);
                SourceGot::Failed
            }
        }
    }
}

impl<P: Read + AsRawFd> Source for PipeSource<P> {
    ghost seen = { λ source. untold source.faults };

    fn read(&mut self, alloc: Global, max: usize) -> Result<SourceGot, Memory>
        requires { 1 ≤ max }
        ensures size { IfOk result (FitsRead max) }
        ensures left { IfOk result (ReadLeaves (untold self.old.faults) (untold self.new.faults)) }
        ensures monotone { self.old.faults ≤ self.new.faults }
        ensures drained { IfOk result
            (Drains (P.remaining self.old.pipe) (P.remaining self.new.pipe)) }
        ensures unchanged { OnErr result (self.new ≡ self.old) }
    {
        let mut piece = vec![in alloc; 0u8; max]?;
        let read = read_some(&mut self.pipe, &self.process, piece.as_mut_slice());
        Ok(self.got(read, piece))
    }
}

/// Reads once there are bytes or the end, and again where the read was interrupted.
fn read_some<P: Read + AsRawFd>(
    pipe: &mut P,
    process: &Process,
    piece: &mut [u8],
) -> io::Result<usize>
    ensures bound { ReadsAtMost result piece.new }
    ensures bytes { ReadConsumes (P.remaining pipe.old) (P.remaining pipe.new) result piece.new }
{
    wait_for_bytes(pipe, process)?;
    for _ in 0..u64::MAX {
        match pipe.read(piece) {
            Err(error) if error.kind() == ErrorKind::Interrupted => {}
            read => return read,
        }
    }
    Err(io::Error::from(ErrorKind::Interrupted))
}

/// A pipe that a child reads. It tells nothing of what it took. Once nobody can read it any more each write is a failure,
/// that of an empty piece too, and raises no signal. A write that waits fails once the child is left.
/// Source: `unix_events.py`, `_UnixWritePipeTransport`.
#[derive(Drop)]
pub struct PipeSink<P> {
    pipe: P,
    process: Arc<Process, Global>,
    faults: u64,
}

impl<P> PipeSink<P> {
    /// What a process reads from this pipe.
    pub fn make(pipe: P, process: Arc<Process, Global>) -> PipeSink<P> {
        PipeSink {
            pipe,
            process,
            faults: 0,
        }
    }

    // What is answered where the system wrote so: an error is a failure.
    fn took(&mut self, wrote: io::Result<usize>, piece: &[u8]) -> SinkTook
        requires bound { WritesAtMost wrote piece.now }
        requires some { IfOk wrote (λ count. 0 < length piece.now → 0 < count) }
        ensures size { FitsWrite piece.now result }
        ensures took { WriteLeaves piece.now (untaken self.old.faults) (untaken self.new.faults)
            result }
        ensures answered { Took wrote self.old.faults self.new.faults result }
        ensures pipe { self.new.pipe ≡ self.old.pipe }
    {
        match wrote {
            Ok(count) => SinkTook::Took(count),
            Err(_) => {
                self.faults = self.faults.saturating_add(1);
                SinkTook::Failed
            }
        }
    }
}

impl<P: Write + AsRawFd> Sink for PipeSink<P> {
    ghost seen = { λ sink. untaken sink.faults };

    fn write(&mut self, _alloc: Global, piece: &[u8]) -> Result<SinkTook, Memory>
        ensures size { IfOk result (FitsWrite piece.now) }
        ensures took { IfOk result (WriteLeaves piece.now (untaken self.old.faults)
            (untaken self.new.faults)) }
        ensures filled { IfOk result
            (Fills (P.contents self.old.pipe) (P.contents self.new.pipe) piece.now) }
        ensures unchanged { OnErr result (self.new ≡ self.old) }
    {
        let wrote = write_some(&mut self.pipe, &self.process, piece);
        Ok(self.took(wrote, piece))
    }
}

/// Writes a front of the piece once there is room for some. Of an empty piece it only looks whether anybody can still
/// read.
fn write_some<P: Write + AsRawFd>(
    pipe: &mut P,
    process: &Process,
    piece: &[u8],
) -> io::Result<usize>
    ensures bound { WritesAtMost result piece.now }
    ensures some { IfOk result (λ count. 0 < length piece.now → 0 < count) }
    ensures bytes { WriteAppends (P.contents pipe.old) (P.contents pipe.new) result piece.now }
{
    if piece.is_empty() {
        expect_reader(pipe)?;
        return Ok(0);
    }
    wait_for_room(pipe, process)?;
    write_front(pipe, &piece[..piece.len().min(MOST_BYTES)])
}

/// Writes at least a byte, and again where the write was interrupted.
fn write_front<P: Write>(pipe: &mut P, front: &[u8]) -> io::Result<usize>
    ensures bound { WritesAtMost result front.now }
    ensures some { IfOk result (λ count. 0 < count) }
    ensures bytes { WriteAppends (P.contents pipe.old) (P.contents pipe.new) result front.now }
{
    for _ in 0..u64::MAX {
        match pipe.write(front) {
            Ok(0) => return Err(io::Error::from(ErrorKind::WriteZero)),
            Err(error) if error.kind() == ErrorKind::Interrupted => {}
            written => return written,
        }
    }
    Err(io::Error::from(ErrorKind::Interrupted))
}
