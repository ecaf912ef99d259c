//! Worked rows of the script's meaning: what definitions give on scripts and tapes whose results
//! were worked out by hand.
#![tactic(auto)]

pub mod expressions;
pub mod tapes;
