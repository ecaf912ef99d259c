//! Runs of scripts that were written by hand, with what the reference machine must make of them.
//! Each function has no body: its clauses are the equations, and the check computes them.
#![tactic(auto)]

pub mod added;
pub mod asking;
pub mod cancels;
pub mod coroutines;
pub mod groups;
pub mod outputs;
pub mod streams;
pub mod timeouts;
pub mod turns;
