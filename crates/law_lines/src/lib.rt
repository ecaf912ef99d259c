//! Laws of lines: the canonical texts of expressions and of lines are read back, and what a line of
//! a text means can be written.
#![tactic(auto)]

pub mod canonical;
pub mod lines;
pub mod written;
