//! Task groups over the loop's parts.
#![tactic(auto)]

mod abort;
mod children;
mod created;
mod exit;
mod exits;
mod failures;
mod group;
mod groups;

pub use created::Created;
pub use exit::GroupExit;
pub use groups::Groups;
