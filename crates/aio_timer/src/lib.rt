//! The handles that wait for a time.
#![tactic(auto)]

mod live;
mod number;
mod place;
mod timers;

pub use live::TimerId;
pub use timers::{Timers, Unplaced};
