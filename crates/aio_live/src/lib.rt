//! The hub: the wire of a live run, over a poller, a launcher and the pumps of its children.
#![tactic(auto)]

mod calls;
mod closing;
mod launching;
mod making;
mod memory;
mod opening;
mod pumped;
mod selecting;
mod state;

pub use aio_polling::Selected;
pub use pumped::Pumped;
pub use selecting::select;
pub use state::State;
