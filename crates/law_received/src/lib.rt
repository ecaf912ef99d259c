//! What reads took is a front of what was received, in order, in every state of every run.
#![tactic(auto)]

pub mod feeding;
pub mod news;
pub mod readers;
pub mod received;
