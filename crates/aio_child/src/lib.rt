//! One child program: its standard input, its two pipes and its exit, and the callbacks and requests on it.
#![tactic(auto)]

mod child;

pub use aio_receiver::{AllGot, StreamGot};
pub use aio_sender::Drain;
pub use child::Child;
