//! Worked rows of the work that a number makes, from sources of their own: the generator's
//! published check, and texts written by hand.
#![tactic(auto)]

pub mod work;
