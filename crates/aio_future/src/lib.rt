//! Futures: pending or done, and what is called when they are done.
#![tactic(auto)]

mod bare;
mod ends;
mod future;
mod futures;
mod held;

pub use future::{Future, FutureId, FutureKind};
pub use futures::Futures;
