#![tactic(auto)]

pub mod placing;
pub mod releasing;
pub mod rooms;
pub mod stacks;
mod walk;

pub use walk::{FutureState, Go, WalkFrame};
