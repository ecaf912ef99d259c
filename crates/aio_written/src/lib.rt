//! How calls and answers are written: the text of a journal's lines and of a trace.
#![tactic(auto)]

mod writing;

pub use writing::{push_answer, push_call};
