//! The values of expressions.
#![tactic(auto)]

mod bounds;
mod env;
mod evaluate;
mod flat_expr;
mod functions;
mod items;
mod joins;
pub mod laws;
mod local;
mod numbers;
mod operation_fault;
mod operators;
mod order;
mod plain;
mod value;

pub use env::Env;
pub use flat_expr::{FlatExpr, FlatExprList};
pub use local::Local;
pub use plain::{number_of, truth_of};
pub use value::{ExprFault, value_of};
