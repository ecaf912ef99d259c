//! The stepper: a coroutine that is resumed with one input at a time.
#![tactic(auto)]

mod calls;
mod evaluate;
mod frames;
mod generator;
mod inputs;
mod ops;
mod requests;
mod run;
mod statements;
mod targets;
mod types;
mod ways_out;

pub use generator::{Gen, GenOut};
