//! Texts that begin with a number and a space, as the outside tells them.
#![tactic(auto)]

mod fields;

pub use fields::{numbered, parted};
