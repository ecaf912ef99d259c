//! The changes of the definitions' trees, on the loop's parts in code: a handle is appended, a future is made, futures are
//! settled in order.
#![tactic(auto)]

mod changing;
pub mod laws;
mod settling;

pub use aio_task::{FutureId, Parts};
pub use changing::{call_soon, make_future};
pub use settling::{copy_of_outcome, settle_all};
