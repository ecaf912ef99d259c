//! Laws of values and of their printed text.
#![tactic(auto)]

pub mod laws;
