//! Counting a run: the kernel's turns over a wire, with how much they did.
#![tactic(auto)]

mod counts;
mod ending;
mod tallying;

pub use counts::Counts;
pub use ending::Uncounted;
pub use tallying::{Tally, tally_run};
