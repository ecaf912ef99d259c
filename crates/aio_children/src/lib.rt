//! Child programs by number, and the callbacks and requests on them.
#![tactic(auto)]

mod children;

pub use children::Children;
