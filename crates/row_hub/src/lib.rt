//! Hubs that are written by hand, with what the definitions give on them. Each function has no body: its clauses are
//! the equations, and the check computes them.
#![tactic(auto)]

pub mod calls;
pub mod seats;
pub mod selects;
