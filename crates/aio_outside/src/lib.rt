//! The wire of a live run: over a hub, it looks for a program before it is launched, and has no select wait behind an answer
//! that was full.
#![tactic(auto)]

mod eager;
mod finder;
mod outside;

pub use eager::is_full;
pub use finder::{Finder, PathFinder};
pub use outside::Outside;
