//! Laws of how the body goes on standing for a state of the machine. Each function has no body: its
//! clauses are the laws.

pub mod asking;
pub mod events;
pub mod slots;
pub mod steps;
pub mod values;
