//! What is promised of `gather`, `wait`, `shield` and `wait_for`: over every run, and call by call.
//! Each function has no body: its clauses are the law.
#![tactic(auto)]

pub mod answers;
pub mod cancels;
pub mod timed;
