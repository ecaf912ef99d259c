//! A journal's entries: the text of an answer, and the answer that a line says.
#![tactic(auto)]

mod answers;
mod entry;
mod items;
mod literal;
mod numbers;
mod tokens;
mod words;

pub use entry::{EntryFault, print_entry, read_entry};
