//! The calls of what is added to the loop's own requests, in order, over every run: they are what
//! the events say. Each function has no body: its clauses are the law.
#![tactic(auto)]

pub mod calls;
