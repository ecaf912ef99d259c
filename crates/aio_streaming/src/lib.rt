//! Requests of tasks on listeners, connections and children, and what their callbacks do, as the kernel serves them.
#![tactic(auto)]

mod acting;
mod answers;
mod children;
mod opening;
mod reading;
mod resuming;
mod writing;

pub use acting::{act, made};
pub use children::{kill, launch, returncode, standard_error, wait_child};
pub use opening::{connect, listen};
pub use reading::{read, read_exactly, read_line, read_until};
pub use resuming::{connected, read_all_on, read_on, yielded};
pub use writing::{close, drain, limits, wait_closed, write, write_eof};
