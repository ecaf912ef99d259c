//! What the names of a script mean: the second pass over its lines.
#![tactic(auto)]

mod both;
mod callees;
mod head;
mod known;
mod line;
mod meaning;
mod part;
mod pass;
mod scope;
mod target;

pub use part::profile_of;
pub use pass::second_pass;
