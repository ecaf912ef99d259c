//! An inbox of seats. Each poster posts on a seat of its own, from any thread, and one taker takes:
//! what is taken of a seat is what was posted on it, in order, once.
#![tactic(auto)]

mod delivery;
mod inbox;
mod name;
mod post;
mod poster;
mod room;
mod taker;
mod unnamed;
mod view;

pub use delivery::{Delivery, InboxPass, InboxQueue};
pub use inbox::Inbox;
pub use model_pump::Stream;
pub use name::InboxName;
pub use post::{Post, PostKind, Posting};
pub use poster::Poster;
pub use taker::Taker;
pub use unnamed::UnnamedInbox;
pub use view::{InboxView, PosterView, SettledSeat, TakerView};
