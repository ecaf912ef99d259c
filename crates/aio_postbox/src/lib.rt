//! Where a hub takes posts: the taking end of its inbox, with how many posts of each seat were taken, and the posters
//! that are lent to children by fours.
#![tactic(auto)]

mod four;
mod postbox;

pub use four::{Four, in_fours};
pub use postbox::Postbox;
