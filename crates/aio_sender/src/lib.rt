//! The sending side of a connection, and a child's standard input: a writer with those who wait for it.
#![tactic(auto)]

mod lost;
mod outlet;
mod sender;
mod sent;

pub use lost::LostSender;
pub use outlet::{closes, fault, loses, sends};
pub use sender::{Drain, Sender};
pub use sent::{Sent, sent_by};
