//! The file that is appended to.
ghost use Rattle.std.specs.Prelude.{◌≡◌, ◌≢◌, ◌<◌, length, true, false, None, string_bytes, IfOk, IfSome, IsSomeAnd, IsErr};
ghost use Rattle.std.specs.Io.{WritesAtMost};
ghost use Rattle.std.specs.Io.KnownBytes.{WriteAppends};

use crate::room::expect_room_in;
use crate::writing::write_front;
use aio_base::Memory;
use std::alloc::Global;
use std::fs::{OpenFile, OpenOptions};
use std::io::{ErrorKind, Write};
use std::{io, rt};

/// A file that was opened to be appended to, by its name. It stays open, so only its first piece needs a descriptor.
#[derive(Drop)]
pub(crate) struct Appended<F> {
    name: String,
    file: F,
}

/// Opens the file of this name to be appended to, unless it is open, and makes it where it is missing. Then no other is
/// open, and where it can't be opened none is. It takes memory for the name.
pub(crate) fn open_as<R: rt::Files>(
    rt: &R,
    appended: &mut Option<Appended<R::File>>,
    alloc: Global,
    name: &str,
) -> Result<(), Memory>
    ensures named { IfOk result (λ _. IfSome appended.new (λ one. string_bytes one.name ≡ name.now)) }
    ensures kept { IfSome appended.old (λ one. string_bytes one.name ≡ name.now
        → appended.new ≡ appended.old) }
{
    if is_open(appended, name) {
        return Ok(());
    }
    *appended = opened(rt, alloc, name)?;
    Ok(())
}

/// Whether a file is open, and it is the one of this name.
fn is_open<F>(appended: &Option<Appended<F>>, name: &str) -> bool
    ensures open { result ≡ true → IfSome appended.now (λ one. string_bytes one.name ≡ name.now) }
    ensures other { result ≡ false → IfSome appended.now (λ one. string_bytes one.name ≢ name.now) }
{
    match appended {
        Some(one) => one.name.as_str() == name,
        None => false,
    }
}

/// The file of this name, or none where it can't be opened.
fn opened<R: rt::Files>(
    rt: &R,
    alloc: Global,
    name: &str,
) -> Result<Option<Appended<R::File>>, Memory>
    ensures named { IfOk result (λ one. IfSome one (λ it. string_bytes it.name ≡ name.now)) }
{
    let own = String::from_str(alloc, name)?;
    match OpenOptions::new().append(true).create(true).open(rt, name) {
        Ok(file) => Ok(Some(Appended { name: own, file })),
        Err(_) => Ok(None),
    }
}

/// Writes a front of the piece behind the end of the file of this name, which is the open one if any is, and says how many
/// bytes went. Where none is open it is an error. The name is there for the clause.
pub(crate) fn append_to<F: Write + OpenFile>(
    appended: &mut Option<Appended<F>>,
    _name: &str,
    piece: &[u8],
) -> io::Result<usize>
    requires named { IfSome appended.old (λ one. string_bytes one.name ≡ _name.now) }
    ensures bound { WritesAtMost result piece.now }
    ensures some { IfOk result (λ count. 0 < length piece.now → 0 < count) }
    ensures closed { appended.old ≡ None → IsErr result }
    ensures bytes { IfSome appended.old (λ one. IsSomeAnd appended.new (λ now.
        WriteAppends (F.contents one.file) (F.contents now.file) result piece.now)) }
{
    match appended {
        Some(one) => write_some(&mut one.file, piece),
        None => Err(io::Error::from(ErrorKind::NotFound)),
    }
}

// Writes a front of the piece. A file that may not grow is not written.
fn write_some<F: Write + OpenFile>(file: &mut F, piece: &[u8]) -> io::Result<usize>
    ensures bound { WritesAtMost result piece.now }
    ensures some { IfOk result (λ count. 0 < length piece.now → 0 < count) }
    ensures bytes { WriteAppends (F.contents file.old) (F.contents file.new) result piece.now }
{
    if piece.is_empty() {
        return Ok(0);
    }
    expect_room_in(&*file)?;
    write_front(file, piece)
}
