//! A step of a task: it begins, its coroutine is resumed and served, and it ends.
#![tactic(auto)]

mod steps;

pub use aio_body::Transports;
pub use aio_serve::{act, child_done, fire, made};
pub use steps::{Started, Stepped, step};
