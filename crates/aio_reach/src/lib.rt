//! What routes added requests to the part that serves them: by codes, and by the keys that a part
//! drew.
#![tactic(auto)]

mod four;
mod reach;

pub use four::Four;
pub use reach::Reach;
