//! What streams are: writers, readers, connections, listeners and children. Definitions, and the enumerations that
//! definitions and code share.
#![tactic(auto)]

mod answers;
mod phase;
mod put;
mod read_op;

pub use answers::{ChildWait, Drain, StreamGot, Wrote};
pub use phase::Phase;
pub use put::{Limited, Put};
pub use read_op::{ReadOp, Taken};
