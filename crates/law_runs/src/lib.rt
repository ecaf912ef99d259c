//! Laws of whole runs: they only add events and are bounded, every state of one is sound, and which
//! steps of what is added keep it so.
#![tactic(auto)]

pub mod bounds;
pub mod ends;
pub mod extras;
pub mod requests;
pub mod runs;
