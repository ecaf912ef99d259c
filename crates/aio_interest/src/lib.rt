//! What items of a turn take up of a listener, a connection or a child, as numbers in sets; and what a select watches of
//! children, by such numbers.
#![tactic(auto)]

mod keys;
mod watching;

pub use keys::{is_marked, mark};
pub use watching::Watching;
