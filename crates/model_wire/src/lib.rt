//! What passes between the loop and the outside: calls, answers, a journal's entries, a run's
//! events and how they are written, and what the outside tells of itself. Definitions, and the
//! enumerations that definitions and code share.
#![tactic(auto)]

mod answer;
mod call;
mod entry;
mod event;
mod item;
mod watch;

pub use answer::Answer;
pub use call::Call;
pub use entry::{EntryToken, EntryWord, IdLetter};
pub use event::{End, Event, Handed};
pub use item::{Interest, Item, Readiness};
pub use watch::Watch;
