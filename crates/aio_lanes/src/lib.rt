//! The lanes of all children that run, by the children's numbers, with the runs of their pumps.
#![tactic(auto)]

mod child_lanes;
mod lanes;

pub use child_lanes::ChildLanes;
pub use lanes::Lanes;
