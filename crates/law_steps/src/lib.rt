//! Laws of outcomes, requests and steps of tasks, and of what is made: they keep tasks and futures
//! sound.
#![tactic(auto)]

pub mod cycles;
pub mod made;
pub mod requests;
pub mod steps;
