//! Worked rows of scripts: texts with the programs that they spell, or with their first fault, worked out by hand.
#![tactic(auto)]

pub mod texts;
pub mod tokens;
