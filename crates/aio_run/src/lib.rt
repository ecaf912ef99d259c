//! The program: what it does for its words, over a shelf, a wire and a sink.
#![tactic(auto)]

mod added;
mod checking;
mod program;
mod replaying;
mod running;
mod script;
mod working;

pub use program::aio_main;
