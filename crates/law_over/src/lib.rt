//! What is over stays over, and is watched no more. Each function has no body: its clauses are the
//! law.
#![tactic(auto)]

pub mod streams;
