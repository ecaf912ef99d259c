//! Worked rows of words, with the command that each list of them asks for. Nothing stands on this
//! crate.
#![tactic(auto)]

pub mod words;
