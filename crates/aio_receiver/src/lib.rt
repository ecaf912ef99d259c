//! The receiving side of a connection, and each pipe that a child writes: a reader with the future that a read waits on.
#![tactic(auto)]

mod bare;
mod receiver;

pub use bare::BareReceiver;
pub use receiver::{AllGot, Receiver, StreamGot};
