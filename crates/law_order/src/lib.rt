//! What connections and children are handed comes in order, and a loss once: of one among all that
//! is open, and in every state of every run.
#![tactic(auto)]

pub mod frames;
pub mod losses;
pub mod order;
pub mod own;
pub mod quiet;
pub mod sides;
