//! Locks, events and queues, as requests that are added to the loop's own.
#![tactic(auto)]

mod event;
mod keys;
mod lock;
mod number;
mod queue;
mod requests;
mod serving;
mod waiters;
mod waking;
mod wanted;

pub use keys::{Keys, Waiting};
pub use requests::Sync;
