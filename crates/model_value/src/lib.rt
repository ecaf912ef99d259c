//! What a script's values and exceptions are: definitions that every other crate cites, and the enumerations that
//! definitions and code share.
#![tactic(auto)]

mod action;
mod input;
mod kind;
mod outcome;
mod place;
mod request;

pub use action::{Action, ChildItem, CycleKind};
pub use input::Input;
pub use kind::Kind;
pub use outcome::Outcome;
pub use place::Place;
pub use request::Request;
