//! What a hub makes of its poller's answers and of the posts of its children's pumps: definitions, and the types that
//! definitions and code share.
#![tactic(auto)]

mod child;
mod giving;
mod halt;
mod pump;

pub use child::{Child, Closing, Flow, Seats, Stay};
pub use giving::Giving;
pub use halt::Halt;
pub use pump::Pump;
