//! Laws of cancel requests, and of waits that would stand in a cycle.
#![tactic(auto)]

pub mod cancels;
pub mod cycles;
