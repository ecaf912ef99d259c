//! States of the loop that are written by hand, with what the definitions give on them. Each
//! function has no body: its clauses are the equations, and the check computes them.
#![tactic(auto)]

pub mod cancels;
pub mod groups;
pub mod ledgers;
pub mod profile_two;
pub mod sound;
pub mod steps;
pub mod timeouts;
