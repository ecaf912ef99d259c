//! The unsent bytes of one writer, and its marks.
#![tactic(auto)]

mod flow;
mod marks;
mod spent;

pub use flow::Flow;
pub use model_stream::{Limited, Put};
pub use spent::SpentFlow;
