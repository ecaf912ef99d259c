//! What each step of the loop leaves, and laws of the machine's turns.
#![tactic(auto)]

pub mod blocks;
pub mod steps;
pub mod tasks;
pub mod trees;
pub mod turns;
