//! Datagram endpoints, as requests that are added to the loop's own.
#![tactic(auto)]

mod datagram;
mod dgram;
mod endpoint;
mod opening;
mod receiving;
mod said;
mod sending;
mod serving;
mod waiting;
mod wanted;

pub use datagram::{Came, Datagram};
pub use dgram::Dgram;
pub use endpoint::Endpoint;
pub use waiting::Waiting;
