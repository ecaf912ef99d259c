//! Driving a run: the kernel's turns over a wire, with the transcript written to a sink.
#![tactic(auto)]

mod cut;
mod driver;
mod ending;
mod halt;
mod lines;
mod recording;
mod writing;

pub use aio_extra::Extra;
pub use cut::Cut;
pub use driver::{Manner, drive, drive_recorded};
pub use halt::Halt;
pub use writing::{say, tell, write_all};
