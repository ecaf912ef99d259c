//! Worked cases of the loop: of futures that stand for others; of coroutines along tapes; and of requests that are added to
//! its own.
#![tactic(auto)]

mod asker;
mod chains;
mod extra;
mod line;
mod next_turn;
mod parts;
mod running;
mod said;
mod scripts;
mod still;
mod tape_files;
mod tapes;
mod transcripts;

pub use asker::{Asker, Question};
pub use extra::run_extra;
pub use next_turn::{NextTurn, Wanted};
pub use parts::run_parts;
pub use tape_files::run_tapes;
