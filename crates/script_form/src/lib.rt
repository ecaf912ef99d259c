//! The forms of lines, and the first pass over the text of a script: each line has a form, and
//! stands where it may.
#![tactic(auto)]

mod block;
mod capped;
mod form_place;
mod forms;
mod fronts;
mod goal;
mod parts;
mod pass;
mod places;
mod terms;
mod text;

pub use model_text::Cause;
pub use pass::first_pass;
pub use script_term::{Arguments, Goal, NumberedForm, Operand, Spelled, Term};
