//! A lane of commands from one head to one tail: first given, first received, each once. The tail waits where nothing
//! stands in the lane.
#![tactic(auto)]

mod between;
mod command;
mod head;
mod opening;
mod parker;
mod tail;
mod track;

pub use command::{Command, Giving};
pub use head::Head;
pub use opening::lane;
pub use tail::Tail;
pub use track::{CommandQueue, LanePass, Track};

#[cfg(test)]
mod tests;
