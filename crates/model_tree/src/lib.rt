//! A script as plain data, and the names that the language has for itself: definitions that other crates cite, and the
//! enumerations that definitions and code share.
#![tactic(auto)]

mod function;
mod operator;
mod request_name;

pub use function::Function;
pub use operator::{Comparison, Operator};
pub use request_name::RequestName;
