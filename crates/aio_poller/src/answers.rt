//! What a call on a connection answers, by what the system said.
ghost use Rattle.std.specs.Prelude.{◌≡◌, length};
ghost use Rattle.std.specs.Io.{ReadsAtMost};
ghost use Rattle.aio_poller.specs.Answers.{Receives, sent, shut};
ghost use Rattle.aio_poller.specs.Streams.{Drains, Fills};

use crate::errors::{is_lost, unready};
use aio_base::Blob;
use aio_wire::Answer;
use std::alloc::Global;
use std::io;
use std::io::{Read, Write};

/// Reads a stream once, into this buffer, and says what that comes to.
pub fn read_from<S: Read>(alloc: Global, stream: &mut S, buffer: &mut [u8]) -> io::Result<Answer>
    ensures { Drains (S.remaining stream.old) (S.remaining stream.new) (length buffer.old) result }
{
    let read = stream.read(buffer);
    received(alloc, read, buffer)
}

/// Writes a front of these bytes to a stream, once, and says what that comes to.
pub fn write_to<S: Write>(stream: &mut S, bytes: &[u8]) -> io::Result<Answer>
    ensures { Fills (S.contents stream.old) (S.contents stream.new) bytes.now result }
{
    sent(stream.write(bytes))
}

// What a recv answers where the system read so into this buffer: what came, or that the other end sends no more.
fn received(alloc: Global, read: io::Result<usize>, buffer: &[u8]) -> io::Result<Answer>
    requires { ReadsAtMost read buffer.now }
    ensures { Receives read buffer.now result }
{
    match read {
        Ok(0) => Ok(Answer::Eof),
        Ok(count) => {
            let bytes = Vec::from_slice(alloc, &buffer[..count])?;
            Ok(Answer::Data(Blob::of(bytes)))
        }
        Err(error) => unready(error),
    }
}

// What a send answers where the system took so much.
fn sent(wrote: io::Result<usize>) -> io::Result<Answer>
    ensures { result ≡ sent wrote }
{
    match wrote {
        Ok(0) => Ok(Answer::Again),
        Ok(count) => Ok(Answer::Took(count as u64)),
        Err(error) => unready(error),
    }
}

/// What the end of a half answers: it is done, also where the peer is gone.
pub fn shut(ended: io::Result<()>) -> io::Result<Answer>
    ensures { result ≡ shut ended }
{
    match ended {
        Err(error) if !is_lost(error.kind()) => Err(error),
        _ => Ok(Answer::Done),
    }
}
