//! What a user of cancellation, timeouts and task groups relies on, in every state of every run.
//! A law that names no profile holds in both.
#![tactic(auto)]

pub mod cancels;
pub mod counts;
pub mod entered;
pub mod events;
pub mod exits;
pub mod groups;
pub mod ledgers;
pub mod must_cancel;
pub mod own_step;
pub mod states;
pub mod staying;
pub mod waiting;
pub mod woken;
