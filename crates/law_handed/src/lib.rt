//! What connections and children are handed in a run, told in two ways by its events, is the same.
//! Each function has no body: its clauses are the law.
#![tactic(auto)]

pub mod handed;
