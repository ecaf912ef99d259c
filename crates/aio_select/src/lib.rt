//! How a hub's select gathers its answer: the poller's items, what was kept, what is so of each standard input, and an
//! item for each post that tells one.
#![tactic(auto)]

mod answering;
mod beginning;
mod first;
mod gathering;
mod pumps;

pub use aio_interest::Watching;
pub use answering::Answering;
pub use beginning::{add_stdins, offer_all};
pub use first::has_item;
pub use gathering::gather;
pub use pumps::{Noted, Pumps};
