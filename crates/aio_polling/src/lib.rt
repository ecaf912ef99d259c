//! One select over a poller and the pumps of all children: a poll of what is watched but children, then posts until there
//! is enough, and what is kept of both.
#![tactic(auto)]

mod copying;
mod ending;
mod polling;
mod selecting;

pub use ending::{Ended, Selected};
pub use selecting::select;
