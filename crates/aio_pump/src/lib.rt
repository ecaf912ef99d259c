//! Pumps. Each serves one pipe of a child, or waits for its exit, on a thread of its own: it obeys the commands of a lane
//! and posts what it read, wrote or waited for.
#![tactic(auto)]

mod bell;
mod exit;
mod exiting;
mod mem_bell;
mod mem_exit;
mod put;
mod reading;
mod report;
mod whole;
mod writing;

pub use bell::Bell;
pub use exit::{ExitSource, Exited};
pub use exiting::pump_exit;
pub use mem_bell::MemBell;
pub use mem_exit::MemExit;
pub use reading::pump_out;
pub use report::{Ending, PumpReport};
pub use writing::pump_in;
