//! The outside of the system: its files as a shelf, and the standard output as a sink.
#![tactic(auto)]

mod appended;
mod files;
mod output;
mod reading;
mod room;
mod standard;
#[cfg(test)]
mod tests;
mod writing;

pub use files::Files;
pub use output::{Output, Printing};
pub use standard::hold_standard;
