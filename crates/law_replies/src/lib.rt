//! Sound states inside a task's step: answers, waits and each request keep them.
#![tactic(auto)]

pub mod answers;
pub mod requests;
pub mod states;
