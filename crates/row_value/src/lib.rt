//! Worked rows of values: what the definitions give on values written by hand.
#![tactic(auto)]

pub mod values;
