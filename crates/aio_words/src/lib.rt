//! What the words behind the program's name ask for.
#![tactic(auto)]

mod command;
mod given;

pub use command::{Command, command_of};
