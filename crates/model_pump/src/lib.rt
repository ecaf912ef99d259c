//! What passes between a hub and the pumps of its children: the posts of pumps and the commands to them, as
//! enumerations that definitions and code share.
#![tactic(auto)]

mod command;
mod post;
mod stream;

pub use command::Command;
pub use post::{Post, PostKind};
pub use stream::Stream;
