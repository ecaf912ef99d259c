//! What is counted of a run: its tasks are those of the state in which it ends. Each function has
//! no body: its clauses are the law.
#![tactic(auto)]

pub mod counts;
