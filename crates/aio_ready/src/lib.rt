//! The handles that wait to run: what `call_soon` appended, in order, up to a bar and after it.
#![tactic(auto)]

mod callbacks;
mod entry;
mod handle;
mod index;
mod least;
mod ready;
mod register;
mod ticket;

pub use callbacks::Callbacks;
pub use handle::{Handle, HandleId, HandleName};
pub use ready::Ready;
pub use ticket::Ticket;
