//! The requests of tasks, as the kernel serves them.
#![tactic(auto)]

mod added;
mod futures;
mod groups;
mod table;
mod tasks;
mod time;
mod timeouts;
mod waiting;

pub use added::{Answered, wake};
pub use aio_body::or_stop;
pub use aio_streaming::{act, connected, made, read_all_on, read_on, yielded};
pub use groups::{child_done, leave_group};
pub use table::reply;
pub use timeouts::fire;
