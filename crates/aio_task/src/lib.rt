//! The loop's parts in code: handles, timers, futures and tasks, and steps of tasks over them.
#![tactic(auto)]

mod awaits;
mod parts;
mod running;
mod suspension;
mod tasks;

pub use aio_future::FutureId;
pub use aio_ready::{HandleId, HandleName, Ticket};
pub use aio_timer::{TimerId, Unplaced};
pub use parts::Parts;
pub use suspension::Suspension;
