//! What a hub stands on: what polls sockets and what starts children, as traits, and each in memory.
#![tactic(auto)]

mod kit;
mod launch;
mod launcher;
mod mem_launcher;
mod mem_poller;
mod plan;
mod play;
mod poller;

pub use kit::{PumpEnd, PumpKit, PumpReports};
pub use launch::Launch;
pub use launcher::{Launched, Launcher};
pub use mem_launcher::MemLauncher;
pub use mem_poller::MemPoller;
pub use poller::{Polled, Poller, is_datagram};
