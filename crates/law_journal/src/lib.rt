//! What is written is read back: answers, what is recorded of a run, and what a number makes.
#![tactic(auto)]

pub mod entries;
pub mod records;
pub mod works;
