//! A network that is made up: connections within one program, and what may go wrong on the way. All of it follows from a seed,
//! from rates, and from what is asked.
#![tactic(auto)]

mod calls;
mod chance;
mod end;
mod faults;
mod listener;
mod net;
mod odds;
mod pipe;
mod rates;
mod service;

pub use chance::Chance;
pub use faults::{Fault, fault_named};
pub use net::Net;
pub use odds::{Odds, later};
pub use pipe::Pipe;
pub use rates::Rates;
