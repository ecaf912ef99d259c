//! Worked cases of a hub, over a poller and a launcher in memory, of parts of the outside in memory, and of the poller over the
//! system's own sockets.
#![tactic(auto)]

mod asks;
mod children;
mod datagrams;
mod hub;
mod hub_rows;
mod outside;
mod play;
mod sockets;
mod telling;

pub use hub::{run_hub, run_outside};
pub use sockets::run_sockets;
