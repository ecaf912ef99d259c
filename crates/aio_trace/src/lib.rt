//! The lines of a transcript: what happens in a run, with the trace or without it, and how it ends.
#![tactic(auto)]

mod actions;
mod ends;
mod writing;

pub use ends::{End, last_line};
pub use writing::lines;
