//! Plays journals through a hub, and compares what a run over it writes and records with what it must.
#![tactic(auto)]

mod launcher;
mod player;
mod playing;
mod poller;
mod pumps;
mod reading;
mod stage;

pub use player::play_files;
