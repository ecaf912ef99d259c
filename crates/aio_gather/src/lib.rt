//! `gather`, `wait`, `shield` and `wait_for`, as requests that are added to the loop's own.
#![tactic(auto)]

mod acting;
mod counting;
mod drawn;
mod gather;
mod gathering;
mod handles;
mod requesting;
mod serving;
mod shielding;
mod timing;
mod waiting;
mod waking;

pub use drawn::{Argument, Drawn, Gathering, TimedState, TimedWait, WaitMode, Waiting};
pub use gather::Gather;
