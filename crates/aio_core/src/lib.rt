//! The kernel: a loop's turns over an outside.
#![tactic(auto)]

mod begin;
mod copying;
mod ending;
mod handles;
mod kernel;
mod news;
mod turns;
mod went;

pub use kernel::Kernel;
pub use went::Went;
