//! What a send and a receive of an endpoint come to.
ghost use Rattle.std.specs.Prelude.{◌≡◌, length};
ghost use Rattle.std.specs.Io.{WritesAtMost};
ghost use Rattle.aio_poller.specs.Carried.{word_of, mailed_by, Mails, port_here, Receives};

use crate::carrier::Carrier;
use crate::datagrams::datagram_text;
use crate::errors::is_idle;
use aio_base::Blob;
use std::alloc::Global;
use std::io;
use std::net::SocketAddr;

/// What became of a datagram that was to be sent.
#[derive(Clone, Copy, PartialEq, Eq)]
pub enum Mailed {
    /// The system took the whole of it.
    Sent,
    /// There is no room for it yet, or a signal interrupted the call.
    Again,
    /// It can't be sent.
    Failed,
}

impl Mailed {
    /// The word by which it is told.
    pub fn word(self) -> &'static [u8]
        ensures { result.now ≡ word_of self }
    {
        match self {
            Mailed::Sent => b"sent",
            Mailed::Again => b"again",
            Mailed::Failed => b"failed",
        }
    }
}

/// What a receive came to.
#[derive(Drop)]
pub enum Received {
    /// A datagram came, which is told so.
    Came(Blob),
    /// One came that no item can name.
    Dropped,
    /// None is there.
    Nothing,
    /// The system failed at it.
    Failed,
}

/// Sends a datagram once, and says what became of it.
/// Source: `selector_events.py`, `_SelectorDatagramTransport.sendto`.
pub fn send_on<C: Carrier>(carrier: &mut C, port: u16, bytes: &[u8]) -> Mailed
    ensures { Mails (record { port = port; bytes = bytes.now }) (C.sent carrier.old) (C.sent carrier.new) result }
{
    let sent = carrier.send(bytes, port);
    mailed_by(sent, bytes.len())
}

// What became of a datagram of this size, by how many of its bytes went.
fn mailed_by(sent: io::Result<usize>, size: usize) -> Mailed
    ensures { result ≡ mailed_by sent size }
{
    match sent {
        Ok(count) if count == size => Mailed::Sent,
        Ok(_) => Mailed::Failed,
        Err(error) if is_idle(error.kind()) => Mailed::Again,
        Err(_) => Mailed::Failed,
    }
}

/// Receives a datagram once, at the endpoint with this number.
/// Source: `selector_events.py`, `_SelectorDatagramTransport._read_ready`.
pub fn receive_on<C: Carrier>(
    alloc: Global,
    carrier: &mut C,
    number: u32,
    buffer: &mut [u8],
) -> io::Result<Received>
    ensures { Receives number (C.arrived carrier.old) (C.arrived carrier.new) result }
{
    match carrier.receive(buffer) {
        Ok((count, from)) => match port_here(from) {
            Some(port) => Ok(Received::Came(datagram_text(alloc, number, port, &buffer[..count])?)),
            None => Ok(Received::Dropped),
        },
        Err(error) if is_idle(error.kind()) => Ok(Received::Nothing),
        Err(_) => Ok(Received::Failed),
    }
}

/// The port of 127.0.0.1 from which something came; nothing where it came from elsewhere, or from port 0.
pub fn port_here(from: SocketAddr) -> Option<u16>
    ensures { result ≡ port_here from }
{
    match from {
        SocketAddr::V4(address) if address.ip().octets() == [127, 0, 0, 1] && address.port() != 0 =>
            { Some(address.port()) }
        SocketAddr::V4(_) | SocketAddr::V6(_) => None,
    }
}
