//! Timeouts: blocks of tasks that are cut off at a deadline.
#![tactic(auto)]

mod delay;
mod handler;
pub mod laws;
mod state;
mod timeout;
mod timeouts;

pub use delay::deadline;
pub use handler::TimeoutHandler;
pub use state::{Rescheduled, TimeoutExit, TimeoutState, timeout_exception};
pub use timeout::Timeout;
pub use timeouts::Timeouts;
