//! All listeners, connections and children of a run together, with every callback and request on
//! them.
#![tactic(auto)]

pub mod laws;
mod reader;
mod transports;

pub use aio_listener::Connecting;
pub use reader::StreamReader;
pub use transports::Transports;
