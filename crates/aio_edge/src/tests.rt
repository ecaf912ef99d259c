//! The real shelf over files of the system, and the real sink over a standard output that fails in turn.

mod scarce;

use crate::files::Files;
use crate::output::Output;
use aio_base::Memory;
use aio_wire::{Shelf, Sink, SinkTook, SourceGot};
use scarce::Scarce;
use std::alloc::Global;
use std::cell::Cell;
use std::fmt::Display;
use std::io::ErrorKind;
use std::test::Fail;
use std::{fs, io, process};

// A standard output whose first try is interrupted, whose second takes two bytes, whose third fails, and whose later
// ones take nothing.
#[derive(Drop)]
struct Faulty {
    tries: Cell<u8>,
}

impl Print for Faulty {
    fn print<D: Display + Drop>(&self, _value: D) -> io::Result<()> {
        Err(io::Error::from(ErrorKind::Unsupported))
    }

    fn println<D: Display + Drop>(&self, _value: D) -> io::Result<()> {
        Err(io::Error::from(ErrorKind::Unsupported))
    }

    fn write_all(&self, _bytes: &[u8]) -> io::Result<()> {
        Err(io::Error::from(ErrorKind::Unsupported))
    }

    fn write_some(&self, bytes: &[u8]) -> io::Result<usize> {
        let tries = self.tries.get();
        self.tries.set(tries.saturating_add(1));
        match tries {
            0 => Err(io::Error::from(ErrorKind::Interrupted)),
            1 => Ok(bytes.len().min(2)),
            2 => Err(io::Error::from(ErrorKind::BrokenPipe)),
            _ => Ok(0),
        }
    }
}

#[test]
fn output_that_fails(rt: HostRuntime) -> Result<(), Fail> {
    let faulty = Faulty {
        tries: Cell::new(0),
    };
    let mut output = Output::new(&faulty);
    for (piece, want) in [
        ("abc", SinkTook::Took(2)),
        ("c", SinkTook::Failed),
        ("c", SinkTook::Failed),
        ("", SinkTook::Took(0)),
    ] {
        let took = output.write(rt.alloc(), piece.as_bytes())?;
        assert!(rt; took == want, "a write of {piece:?} gave another answer");
    }
    Ok(())
}

// Whether a read of a file gives these bytes, or the end for none.
fn gives<F: Shelf>(
    alloc: Global,
    files: &mut F,
    name: &str,
    from: u64,
    want: &str,
) -> Result<bool, Memory> {
    Ok(match files.read(alloc, name, from, 3)? {
        SourceGot::Bytes(bytes) => bytes.items() == want.as_bytes(),
        SourceGot::End => want.is_empty(),
        SourceGot::Failed => false,
    })
}

#[test]
fn file_there_and_back(rt: HostRuntime) -> Result<(), Fail> {
    let alloc = rt.alloc();
    let process = process::id(rt.process());
    let name = format!(in alloc; "/tmp/aio-files-{process}")?;
    let mut files = Files::new(&rt);
    assert!(rt;
        !gives(alloc, &mut files, name.as_str(), 0, "")?,
        "a missing file"
    );
    files.append(alloc, name.as_str(), b"abc")?;
    files.append(alloc, name.as_str(), b"de")?;
    for (from, want) in [(0, "abc"), (3, "de"), (5, ""), (9, "")] {
        assert!(rt;
            gives(alloc, &mut files, name.as_str(), from, want)?,
            "from {from}"
        );
    }
    fs::remove_file(&rt, name.as_str())?;
    Ok(())
}

// Puts bytes into a file, in as many pieces as it takes.
fn put<F: Shelf>(alloc: Global, files: &mut F, name: &str, bytes: &[u8]) -> Result<(), Memory> {
    let mut rest = bytes;
    for _ in 0..bytes.len() {
        if rest.is_empty() {
            break;
        }
        let SinkTook::Took(count) = files.append(alloc, name, rest)? else {
            break;
        };
        rest = rest.get(count..).unwrap_or(&[]);
    }
    Ok(())
}

// Whether a file holds these bytes: it is read from each place on that a read comes to.
fn holds<F: Shelf>(alloc: Global, files: &mut F, name: &str, bytes: &[u8]) -> Result<bool, Memory> {
    let mut rest = bytes;
    for _ in 0..bytes.len() {
        if rest.is_empty() {
            break;
        }
        let at = bytes.len().saturating_sub(rest.len());
        let SourceGot::Bytes(piece) = files.read(alloc, name, at as u64, 1_048_576)? else {
            return Ok(false);
        };
        if !rest.starts_with(piece.items()) {
            return Ok(false);
        }
        rest = rest.get(piece.items().len()..).unwrap_or(&[]);
    }
    let end = files.read(alloc, name, bytes.len() as u64, 1)?;
    Ok(rest.is_empty() && matches!(end, SourceGot::End))
}

// Bytes of which none is as that which stands 65,536 places before.
fn bytes_of(alloc: Global, size: usize) -> Result<Vec<u8>, Memory> {
    let mut bytes = Vec::new(alloc);
    for at in 0..size {
        bytes.push((at % 251) as u8)?;
    }
    Ok(bytes)
}

#[test]
fn whole_files(rt: HostRuntime) -> Result<(), Fail> {
    let alloc = rt.alloc();
    let process = process::id(rt.process());
    let mut files = Files::new(&rt);
    for size in [200_000, 1_048_576] {
        let name = format!(in alloc; "/tmp/aio-whole-{process}-{size}")?;
        let bytes = bytes_of(alloc, size)?;
        put(alloc, &mut files, name.as_str(), bytes.as_slice())?;
        let held = holds(alloc, &mut files, name.as_str(), bytes.as_slice())?;
        fs::remove_file(&rt, name.as_str())?;
        assert!(rt; held, "{size}");
    }
    Ok(())
}

// A file that is appended to grows though no other can be opened. Its name alone opens it.
#[test]
fn no_descriptor_left(rt: HostRuntime) -> Result<(), Fail> {
    let alloc = rt.alloc();
    let process = process::id(rt.process());
    let name = format!(in alloc; "/tmp/aio-scarce-{process}")?;
    let other = format!(in alloc; "/tmp/aio-other-{process}")?;
    let scarce = Scarce {
        files: &rt,
        left: Cell::new(1),
    };
    let mut files = Files::new(&scarce);
    for (file, piece, want) in [
        (&name, "ab", SinkTook::Took(2)),
        (&name, "c", SinkTook::Took(1)),
        (&other, "d", SinkTook::Failed),
    ] {
        let took = files.append(alloc, file.as_str(), piece.as_bytes())?;
        assert!(rt; took == want, "a write of {piece:?} gave another answer");
    }
    let held = holds(alloc, &mut Files::new(&rt), name.as_str(), b"abc")?;
    fs::remove_file(&rt, name.as_str())?;
    assert!(rt; held, "what was appended");
    Ok(())
}

// Two files that are appended to by turns have each its own pieces.
#[test]
fn two_files_by_turns(rt: HostRuntime) -> Result<(), Fail> {
    let alloc = rt.alloc();
    let process = process::id(rt.process());
    let first = format!(in alloc; "/tmp/aio-first-{process}")?;
    let second = format!(in alloc; "/tmp/aio-second-{process}")?;
    let mut files = Files::new(&rt);
    for (name, piece) in [(&first, "a"), (&second, "b"), (&first, "c"), (&second, "d")] {
        files.append(alloc, name.as_str(), piece.as_bytes())?;
    }
    let right = holds(alloc, &mut files, first.as_str(), b"ac")?
        && holds(alloc, &mut files, second.as_str(), b"bd")?;
    fs::remove_file(&rt, first.as_str())?;
    fs::remove_file(&rt, second.as_str())?;
    assert!(rt; right, "another file's pieces");
    Ok(())
}
