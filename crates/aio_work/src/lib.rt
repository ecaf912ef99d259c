//! A script and a journal made from a number, to have the loop work.
#![tactic(auto)]

mod journal;
mod numbers;
mod script;
#[cfg(test)]
mod tests;
mod texts;

pub use texts::work;
