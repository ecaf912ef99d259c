//! A child of the system: its process, its pipes and its exit.
#![tactic(auto)]

mod command;
mod ended;
mod exit;
mod pipes;
mod process;
mod readiness;

pub use command::{command_of, copied};
pub use ended::{Ended, Forgotten};
pub use exit::ChildExit;
pub use pipes::{PipeSink, PipeSource};
pub use process::Process;
