//! What the loop's parts in code stand for: each call on queue, timers, futures and tasks is the
//! machine's operation.
#![tactic(auto)]

pub mod futures;
pub mod handles;
pub mod name_maps;
pub mod requests;
pub mod tasks;
pub mod timers;
pub mod waits;
