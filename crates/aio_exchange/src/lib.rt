//! What several asks of one port did, as one record, and calls that do what trees of asks and
//! changes say.
#![tactic(auto)]

mod asking;
pub mod calls;
pub mod changes;
pub mod laws;

pub use asking::ask;
