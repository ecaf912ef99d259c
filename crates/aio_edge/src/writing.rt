//! One write that takes some bytes.
ghost use Rattle.std.specs.Prelude.{◌≡◌, ◌<◌, IfOk};
ghost use Rattle.std.specs.Io.{WritesAtMost};
ghost use Rattle.std.specs.Io.KnownBytes.{WriteAppends};

use std::io;
use std::io::{ErrorKind, Write};

/// Writes at least a byte of a front, and again where the write was interrupted. Where a writer takes none for now, that is
/// its error.
pub(crate) fn write_front<W: Write>(writer: &mut W, front: &[u8]) -> io::Result<usize>
    ensures bound { WritesAtMost result front.now }
    ensures some { IfOk result (λ count. 0 < count) }
    ensures bytes { WriteAppends (W.contents writer.old) (W.contents writer.new) result front.now }
{
    for _ in 0..u64::MAX {
        match writer.write(front) {
            Ok(0) => return Err(io::Error::from(ErrorKind::WriteZero)),
            Err(error) if error.kind() == ErrorKind::Interrupted => {}
            written => return written,
        }
    }
    Err(io::Error::from(ErrorKind::Interrupted))
}
