//! Flat code of programs.
#![tactic(auto)]

mod body;
mod bound;
mod builder;
mod code;
mod exprs;
mod flat;
mod laying;
mod name;
mod numbers;
mod places;
mod single;
mod target;
mod variables;

pub use body::{Clause, ClauseList, Op, Range};
pub use code::{Code, FlatBody};
pub use flat::flatten;
pub use name::Name;
