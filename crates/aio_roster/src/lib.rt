//! The children of a hub, and on which seats their pumps post.
#![tactic(auto)]

mod changing;
mod noting;
mod roster;
mod seating;

pub use roster::Roster;

pub type Post = model_pump::Post<aio_base::Blob>;

pub type PostKind = model_pump::PostKind<aio_base::Blob>;
