//! What texts of every kind share: their lines, and the numbers in them.
#![tactic(auto)]

mod lines;
mod numbers;

pub use lines::next_line;
pub use numbers::{are_digits, number, value_of};
