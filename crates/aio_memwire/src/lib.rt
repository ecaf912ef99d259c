//! Wires in memory: a journal's, one that is dead, and wrappers of the outside that make chosen calls fail. And the
//! reading of a file's front.
#![tactic(auto)]

mod answering;
mod buffers;
mod dead_wire;
mod fail_at;
mod handed;
mod journal;
mod journal_wire;
mod reading;
mod sinks;
mod sources;
mod wires;

pub use buffers::{Answers, Buffers};
pub use dead_wire::DeadWire;
pub use fail_at::FailAt;
pub use journal_wire::JournalWire;
pub use model_wire::Handed;
pub use reading::{ReadFault, read_front};
