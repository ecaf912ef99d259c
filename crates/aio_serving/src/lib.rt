//! What a call gives to the lanes of one child, and what the child's record keeps of it.
#![tactic(auto)]

mod closing;
mod feeding;
mod heads;
mod record;
mod serving;

pub use closing::end_child;
pub use feeding::{Fed, feed_child};
pub use heads::{Command, Heads};
pub use record::{is_over, runs};
pub use serving::serve_child;
