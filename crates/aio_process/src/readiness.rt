//! What a pipe is ready for.
use crate::process::Process;
use libc::net::{POLLIN, POLLOUT, poll};
use libc::types::pollfd;
use std::io;
use std::io::ErrorKind;
use std::os::fd::AsRawFd;

/// How long one look waits, in milliseconds. After each it is seen whether anybody still wants the pipe.
const LOOK: i32 = 250;

/// Waits until the pipe has bytes or has ended.
pub fn wait_for_bytes<P: AsRawFd>(pipe: &P, process: &Process) -> io::Result<()> {
    wait_for(pipe, POLLIN, process)
}

/// Waits until the pipe takes bytes or has no reader.
pub fn wait_for_room<P: AsRawFd>(pipe: &P, process: &Process) -> io::Result<()> {
    wait_for(pipe, POLLOUT, process)
}

/// An error where nobody can read any more what is written. It waits for nothing.
pub fn expect_reader<P: AsRawFd>(pipe: &P) -> io::Result<()> {
    if is_ready(pipe, 0, 0)? {
        Err(io::Error::from(ErrorKind::BrokenPipe))
    } else {
        Ok(())
    }
}

/// Waits until one of these is so. An error once nobody wants the pipe any more.
fn wait_for<P: AsRawFd>(pipe: &P, events: i16, process: &Process) -> io::Result<()> {
    for _ in 0..u64::MAX {
        if process.is_left() {
            return Err(io::Error::from(ErrorKind::ConnectionAborted));
        }
        if is_ready(pipe, events, LOOK)? {
            return Ok(());
        }
    }
    Err(io::Error::from(ErrorKind::Interrupted))
}

/// Looks for so many milliseconds whether one of these is so, or the pipe is broken. A look that was interrupted found
/// nothing.
fn is_ready<P: AsRawFd>(pipe: &P, events: i16, wait: i32) -> io::Result<bool> {
    let mut asked = [pollfd {
        fd: pipe.as_raw_fd(),
        events,
        revents: 0,
    }];
    if poll(&mut asked, wait) >= 0 {
        return Ok(asked[0].revents != 0);
    }
    let error = io::Error::from_raw_os_error(os::errno());
    if error.kind() == ErrorKind::Interrupted {
        Ok(false)
    } else {
        Err(error)
    }
}
