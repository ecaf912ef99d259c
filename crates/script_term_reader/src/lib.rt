//! How expressions are read from the tokens of a line, from left to right.
#![tactic(auto)]

mod ends;
mod feeding;
mod pending;
mod read;
mod reader;

pub use read::read_term;
