//! A wire over an outside that is made up: a clock that jumps to what comes next, the network of `aio_simnet`, and programs of
//! a small table. All of it follows from a seed, from rates and from the calls.
#![tactic(auto)]

mod child;
mod children;
mod items;
mod outside;
mod plan;
mod program;
mod sim_wire;
mod spare;

pub use aio_simnet::{Chance, Fault, Rates, fault_named};
pub use sim_wire::SimWire;
