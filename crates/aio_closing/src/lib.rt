//! The end of a hub: its children are killed, their pumps are stopped, and what these did is told.
#![tactic(auto)]

mod closing;
mod killing;
mod settling;
mod stopping;
mod taking;
mod telling;

pub use closing::close;
