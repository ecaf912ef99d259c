//! Which errors of the system are answers. Any other is a fault.
//! Source: `selector_events.py`; the library reference, "Exceptions", `OSError`.
ghost use Rattle.std.specs.Prelude.{◌≡◌};
ghost use Rattle.std.specs.IoError.{error_kind};
ghost use Rattle.aio_poller.specs.Answers.{is_idle, is_lost, is_barred, is_short, is_failing, unready, refused};

use aio_wire::Answer;
use std::io;
use std::io::ErrorKind;

/// Numbers of the system for want of descriptors or of buffers: EMFILE, ENFILE, ENOBUFS and ENOMEM. Source: errno(3).
const SHORTAGES: [i32; 4] = [24, 23, 105, 12];

/// Numbers of the system for what ends one connection, and no other: ENOBUFS, ENOMEM, EPERM and EPROTO. Source: errno(3).
const FAILURES: [i32; 4] = [105, 12, 1, 71];

/// The system has no descriptor or no buffer left.
pub fn is_short(error: &io::Error) -> bool
    ensures { result ≡ is_short error.now }
{
    match error.raw_os_error() {
        Some(number) => SHORTAGES.contains(&number),
        None => false,
    }
}

/// The system failed at this connection alone: it has no buffer for it, forbids it, or its protocol went wrong.
pub fn is_failing(error: &io::Error) -> bool
    ensures { result ≡ is_failing error.now }
{
    match error.raw_os_error() {
        Some(number) => FAILURES.contains(&number),
        None => false,
    }
}

/// Nothing came yet, or a signal interrupted the call.
pub fn is_idle(kind: ErrorKind) -> bool
    ensures { result ≡ is_idle kind }
{
    matches!(kind, ErrorKind::WouldBlock | ErrorKind::Interrupted)
}

/// The peer is gone, or the way to it.
pub fn is_lost(kind: ErrorKind) -> bool
    ensures { result ≡ is_lost kind }
{
    matches!(
        kind,
        ErrorKind::ConnectionReset
            | ErrorKind::ConnectionAborted
            | ErrorKind::ConnectionRefused
            | ErrorKind::BrokenPipe
            | ErrorKind::NotConnected
            | ErrorKind::TimedOut
            | ErrorKind::HostUnreachable
            | ErrorKind::NetworkUnreachable
            | ErrorKind::NetworkDown
    )
}

/// The address is taken, isn't there or isn't permitted.
fn is_barred(kind: ErrorKind) -> bool
    ensures { result ≡ is_barred kind }
{
    matches!(
        kind,
        ErrorKind::AddrInUse | ErrorKind::AddrNotAvailable | ErrorKind::PermissionDenied
    )
}

/// What an accept, a recv or a send answers where the system failed so: `again` where nothing came yet, and nowhere else;
/// `broken` where the connection is lost.
/// Source: `selector_events.py`, `_fatal_error`.
pub fn unready(error: io::Error) -> io::Result<Answer>
    ensures { result ≡ unready error }
{
    let kind = error.kind();
    if is_idle(kind) {
        Ok(Answer::Again)
    } else if is_lost(kind) || is_failing(&error) {
        Ok(Answer::Broken)
    } else {
        Err(error)
    }
}

/// What a listen or a connect answers where the system failed so.
pub fn refused(error: io::Error) -> io::Result<Answer>
    ensures { result ≡ refused error }
{
    let kind = error.kind();
    if is_lost(kind) || is_short(&error) || is_barred(kind) {
        Ok(Answer::Refused)
    } else {
        Err(error)
    }
}
