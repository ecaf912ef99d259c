//! Laws of writers and readers, of sending sides, and of connections and children.
#![tactic(auto)]

pub mod children;
pub mod connections;
pub mod readers;
pub mod receivers;
pub mod senders;
pub mod writers;
