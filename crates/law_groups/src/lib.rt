//! Laws of timeouts and of task groups: tags and deadlines, and what groups are told.
#![tactic(auto)]

pub mod groups;
pub mod scheduling;
pub mod telling;
pub mod timeouts;
