//! The canonical text of programs.
#![tactic(auto)]

mod block;
mod constant;
mod expression;
mod head;
mod program;
mod target;
mod words;

pub use program::print;
