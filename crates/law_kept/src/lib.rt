//! What is kept of what is added to the loop's own requests, together with the loop, over every
//! run. Each function has no body: its clauses are the law.
#![tactic(auto)]

pub mod kept;
