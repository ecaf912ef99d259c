//! Jobs beside the loop, as a request that is added to the loop's own.
#![tactic(auto)]

mod exec;
mod jobs;
mod requests;
mod said;
mod serving;
mod wanted;

pub use exec::Exec;
pub use jobs::Jobs;
pub use requests::{Requests, Standing};
