//! What a descriptor of the system has room for, before it is written.
ghost use Rattle.std.specs.Prelude.{◌<◌, IfOk};

use libc::net::{POLLOUT, poll};
use libc::types::{pollfd, rlimit};
use std::fs::OpenFile;
use std::io;
use std::io::ErrorKind;

/// The standard output.
pub(crate) const OUTPUT: i32 = 1;

/// The limit on how long a file may grow. Source: getrlimit(2), RLIMIT_FSIZE.
const FILE_SIZE: i32 = 1;

/// How long one look waits, in milliseconds.
const LOOK: i32 = 250;

/// Waits until this descriptor takes bytes, or has broken.
pub(crate) fn wait_for_room(fd: i32) -> io::Result<()> {
    for _ in 0..u64::MAX {
        if takes_bytes(fd)? {
            return Ok(());
        }
    }
    Err(io::Error::from(ErrorKind::Interrupted))
}

// Looks for a while whether this descriptor takes bytes or has broken. A look that was interrupted found nothing.
fn takes_bytes(fd: i32) -> io::Result<bool> {
    let mut asked = [pollfd {
        fd,
        events: POLLOUT,
        revents: 0,
    }];
    if poll(&mut asked, LOOK) >= 0 {
        return Ok(asked[0].revents != 0);
    }
    let error = io::Error::from_raw_os_error(os::errno());
    if error.kind() == ErrorKind::Interrupted {
        Ok(false)
    } else {
        Err(error)
    }
}

/// An error where a file that ends here may not grow: the system would end the program by SIGXFSZ.
pub(crate) fn expect_place(end: u64) -> io::Result<()> {
    within(end, most_bytes())
}

/// An error where this file may not grow. Where the system doesn't tell how long it is, that is left to the write.
pub(crate) fn expect_room_in<F: OpenFile>(file: &F) -> io::Result<()> {
    if most_bytes() == u64::MAX {
        return Ok(());
    }
    match file.metadata() {
        Ok(found) if found.is_file() => expect_place(found.len()),
        _ => Ok(()),
    }
}

// An error where a file that ends here has as many bytes as it may have.
fn within(end: u64, most: u64) -> io::Result<()>
    ensures { IfOk result (λ _. end < most) }
{
    if most <= end {
        return Err(io::Error::from(ErrorKind::FileTooLarge));
    }
    Ok(())
}

// How many bytes a file may have. Where the system doesn't tell, as many as there are.
fn most_bytes() -> u64 {
    let mut limit = rlimit {
        rlim_cur: u64::MAX,
        rlim_max: u64::MAX,
    };
    if libc::getrlimit(FILE_SIZE, &mut limit) == 0 {
        limit.rlim_cur
    } else {
        u64::MAX
    }
}

/// Where the file behind this descriptor ends: 0 of what is no file, and wherever a file may grow without a limit.
pub(crate) fn end_of(fd: i32) -> u64 {
    if most_bytes() == u64::MAX {
        return 0;
    }
    let place = libc::lseek(fd, 0, libc::SEEK_CUR);
    if place < 0 {
        return 0;
    }
    let end = libc::lseek(fd, 0, libc::SEEK_END);
    let _back = libc::lseek(fd, place, libc::SEEK_SET);
    u64::try_from(end.max(place)).unwrap_or(0)
}
