//! Laws of sound states: a run begins in one, and each kind of step keeps it.
#![tactic(auto)]

pub mod callbacks;
pub mod groups;
pub mod requests;
pub mod starting;
pub mod taking;
pub mod tasks;
pub mod timeouts;
