//! Writers, readers, connections, listeners and children that are written by hand, with what the
//! definitions give on them. Each function has no body: its clauses are the equations, and the
//! check computes them.
#![tactic(auto)]

pub mod children;
pub mod connections;
pub mod limits;
pub mod listeners;
pub mod readers;
pub mod requests;
pub mod writers;
