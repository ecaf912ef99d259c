//! What opens listeners and connections, a listener that accepts, and what a callback does.
#![tactic(auto)]

mod accepting;
mod acting;
mod answers;
mod beginning;
mod connecting;
mod listening;

pub use accepting::readable_server;
pub use acting::act;
pub use beginning::connect;
pub use connecting::Connecting;
pub use listening::{close_server, listen};
