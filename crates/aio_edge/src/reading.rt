//! The file that is read.
ghost use Rattle.std.specs.Prelude.{◌≡◌, ◌+◌, true, false, None, string_bytes, IfErr, IfOk, IfSome, IsErr};
ghost use Rattle.std.specs.Io.{ReadsAtMost};
ghost use Rattle.std.specs.Io.KnownBytes.{ReadConsumes};
ghost use Rattle.std.specs.Io.Seek.{MovesTo};
ghost use Rattle.aio_edge.specs.Bytes.{ReadsFront};
ghost use Rattle.aio_edge.specs.Standing.{StandsAt, StandsElsewhere};

use aio_base::Memory;
use std::alloc::Global;
use std::io::{ErrorKind, Read, Seek, SeekFrom};
use std::{fs, io, rt};

/// A file that was opened to be read: its name, and the place at which it stands. It stays open, so that one which can't
/// be moved, as a pipe, is read on.
#[derive(Drop)]
pub(crate) struct Reading<F> {
    name: String,
    file: F,
    at: u64,
}

/// Opens the file of this name at this place, unless it stands there. Then no other is open, and where it can't be opened,
/// or moved there, none is. It takes memory for the name.
pub(crate) fn open_at<R: rt::Files>(
    rt: &R,
    reading: &mut Option<Reading<R::File>>,
    alloc: Global,
    name: &str,
    from: u64,
) -> Result<(), Memory>
    ensures stands { IfOk result (λ _. IfSome reading.new (λ one.
        StandsAt name.now from (string_bytes one.name) one.at)) }
    ensures kept { IfSome reading.old (λ one.
        StandsAt name.now from (string_bytes one.name) one.at → reading.new ≡ reading.old) }
{
    if is_at(reading, name, from) {
        return Ok(());
    }
    *reading = None;
    *reading = opened(rt, alloc, name, from)?;
    Ok(())
}

/// Whether a file is open, it is the one of this name, and it stands at this place.
fn is_at<F>(reading: &Option<Reading<F>>, name: &str, from: u64) -> bool
    ensures at { result ≡ true → IfSome reading.now (λ one.
        StandsAt name.now from (string_bytes one.name) one.at) }
    ensures elsewhere { result ≡ false → IfSome reading.now (λ one.
        StandsElsewhere name.now from (string_bytes one.name) one.at) }
{
    match reading {
        Some(one) => one.at == from && one.name.as_str() == name,
        None => false,
    }
}

/// The file of this name at this place, or none where it can't be opened or moved there. A file that was just opened
/// stands at its beginning.
fn opened<R: rt::Files>(
    rt: &R,
    alloc: Global,
    name: &str,
    from: u64,
) -> Result<Option<Reading<R::File>>, Memory>
    ensures stands { IfOk result (λ opened. IfSome opened (λ one.
        StandsAt name.now from (string_bytes one.name) one.at)) }
{
    let own = String::from_str(alloc, name)?;
    let Ok(mut file) = fs::open(rt, name) else {
        return Ok(None);
    };
    if from > 0 && move_to(&mut file, from).is_err() {
        return Ok(None);
    }
    Ok(Some(Reading {
        name: own,
        file,
        at: from,
    }))
}

/// Moves a file to this place.
fn move_to<F: Seek>(file: &mut F, from: u64) -> io::Result<u64>
    ensures moves { MovesTo (F.stream_position file.old) (F.stream_position file.new) from result }
{
    file.seek(SeekFrom::Start(from))
}

/// Reads into the piece from this place of the file of this name on, at which the open one stands if any is, and says how
/// many bytes came. None is the end. Where none is open it is an error. One that ended or failed is open no more. Name and
/// place are there for the clauses.
pub(crate) fn read_on<F: Read + Drop>(
    reading: &mut Option<Reading<F>>,
    _name: &str,
    _from: u64,
    piece: &mut [u8],
) -> io::Result<usize>
    requires stands { IfSome reading.old (λ one.
        StandsAt _name.now _from (string_bytes one.name) one.at) }
    ensures bound { ReadsAtMost result piece.new }
    ensures closed { reading.old ≡ None → IsErr result }
    ensures on { IfOk result (λ count. IfSome reading.new (λ one.
        StandsAt _name.now (_from + count) (string_bytes one.name) one.at)) }
    ensures failed { IfErr result (λ _. reading.new ≡ None) }
    ensures bytes { IfSome reading.old (λ one.
        ReadsFront (F.remaining one.file) result piece.new) }
{
    let Some(Reading { name, mut file, at }) = reading.take() else {
        return Err(io::Error::from(ErrorKind::NotFound));
    };
    let read = read_front(&mut file, piece);
    if let Ok(count) = &read {
        if *count > 0 {
            if let Some(at) = at.checked_add(*count as u64) {
                *reading = Some(Reading { name, file, at });
            }
        }
    }
    read
}

/// Reads once, and again where the read was interrupted.
#[tactic(auto, using(crate::proofs::Fronts::reads_front))]
fn read_front<F: Read>(file: &mut F, piece: &mut [u8]) -> io::Result<usize>
    ensures bound { ReadsAtMost result piece.new }
    ensures front { ReadsFront (F.remaining file.old) result piece.new }
{
    for _ in 0..u64::MAX {
        match file.read(piece) {
            Err(error) if error.kind() == ErrorKind::Interrupted => {}
            read => return read,
        }
    }
    Err(io::Error::from(ErrorKind::Interrupted))
}
