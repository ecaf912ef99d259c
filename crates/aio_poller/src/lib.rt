//! The sockets of the system: listeners, connections and endpoints of datagrams on 127.0.0.1, polled over epoll.
#![tactic(auto)]

mod address;
mod answers;
mod bell;
mod carrier;
mod conn;
mod datagrams;
mod endpoint;
mod endpoints;
mod errors;
mod look;
mod registration;
mod rest;
mod server;
mod sockets;
mod system;
mod time;
mod wakes;

pub use bell::PollerBell;
pub use system::RealPoller;
