//! What carries the datagrams of an endpoint.
ghost use Rattle.std.specs.Prelude.{◌≡◌, List, [], ◌∷◌, Option, take, IfOk, OnErr};
ghost use Rattle.std.specs.Counts.{IsPrefixLen};
ghost use Rattle.std.specs.Io.{WritesAtMost};
ghost use Rattle.model_hub.specs.Told.{told_with};
ghost use Rattle.aio_poller.specs.Carried.{Mail, Arrival, TakesFirst};

use crate::address::here;
use mio::net::UdpSocket;
use std::io;
use std::net::SocketAddr;

/// A socket for datagrams.
/// Source: the library reference, `socket`, `sendto` and `recvfrom`.
pub trait Carrier {
    /// What it sent, and what came and wasn't received yet, where it tells these.
    ghost sent: { Self → Option (List Mail) };

    ghost arrived: { Self → Option (List Arrival) };

    /// Sends a datagram to this port of 127.0.0.1, and says how many of its bytes went.
    fn send(&mut self, bytes: &[u8], port: u16) -> io::Result<usize>
        ensures most { WritesAtMost result bytes.now }
        ensures sent { IfOk result (λ count. sent self.new
            ≡ told_with (record { port = port; bytes = take count bytes.now } ∷ []) (sent self.old)) }
        ensures none { OnErr result (sent self.new ≡ sent self.old) }
        ensures arrived { arrived self.new ≡ arrived self.old };

    /// Receives a datagram into this buffer, which has room for it, and says how many bytes it has and where it came from.
    fn receive(&mut self, buffer: &mut [u8]) -> io::Result<(usize, SocketAddr)>
        ensures most { IfOk result (λ came. IsPrefixLen came.0 buffer.new) }
        ensures first { IfOk result (λ came. TakesFirst (arrived self.old) (arrived self.new)
            (record { from = came.1; bytes = take came.0 buffer.new })) }
        ensures none { OnErr result (arrived self.new ≡ arrived self.old) }
        ensures sent { sent self.new ≡ sent self.old };
}

impl Carrier for UdpSocket {
    ghost use Rattle.std.specs.Prelude.{None};

    ghost sent = { λ _. None };

    ghost arrived = { λ _. None };

    fn send(&mut self, bytes: &[u8], port: u16) -> io::Result<usize> {
        self.send_to(bytes, here(port))
    }

    fn receive(&mut self, buffer: &mut [u8]) -> io::Result<(usize, SocketAddr)> {
        self.recv_from(buffer)
    }
}
