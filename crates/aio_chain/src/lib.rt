//! A list that is linked one way. Each value stands in memory that was asked for before.
#![tactic(auto)]

mod chain;
mod nodes;
mod spare;
#[cfg(test)]
mod tests;

pub use chain::Chain;
pub use spare::Spare;
