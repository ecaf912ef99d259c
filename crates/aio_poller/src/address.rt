//! The address of the machine's own, at which all sockets are.
ghost use Rattle.aio_poller.specs.Here.{IsHere};

use std::net::{Ipv4Addr, SocketAddr, SocketAddrV4};

/// 127.0.0.1 at this port: no other machine reaches it.
pub fn here(port: u16) -> SocketAddr
    ensures { IsHere port result }
{
    SocketAddr::V4(SocketAddrV4::new(Ipv4Addr::LOCALHOST, port))
}
