#![tactic(auto)]

mod answer_use;
pub mod laws;
mod op;
mod open_handler;
mod range;
mod way;

pub use answer_use::AnswerUse;
pub use op::Op;
pub use open_handler::OpenHandler;
pub use range::{Clause, Range};
pub use way::Way;
