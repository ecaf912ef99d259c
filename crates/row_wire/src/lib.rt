//! Worked rows of the outside's words: lines with their entries, and calls with answers that fit or don't, worked out by
//! hand.
#![tactic(auto)]

pub mod entries;
pub mod fitting;
pub mod writing;
