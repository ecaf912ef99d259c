//! The reader of scripts, from a text to its program or its first fault, and the printer, back to
//! the canonical text.
#![tactic(auto)]

mod lines;
mod reader;

pub use aio_program::{Coroutine, Program};
pub use reader::read;
pub use script_canonical::print;
pub use script_fault::ScriptFault;
