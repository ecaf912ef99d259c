//! What is added to the loop's own requests: the trait of what serves further ones, and what serves
//! none.
#![tactic(auto)]

mod asked;
mod extra;
mod nothing;

pub use asked::Asked;
pub use extra::Extra;
pub use nothing::NoExtra;
