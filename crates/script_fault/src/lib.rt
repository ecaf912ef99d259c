//! Why a text is no script: a line's fault, and the text's.
#![tactic(auto)]

mod line_fault;
mod script_fault;

pub use line_fault::LineFault;
pub use model_text::Cause;
pub use script_fault::{ScriptFault, cause_number};
