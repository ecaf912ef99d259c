//! Programs as code holds them, and the statements that lines spell. Contracts see
//! them as plain data.
#![tactic(auto)]

mod block;
mod body;
mod line;
mod program;
mod sorted;
mod statement;
mod target;

pub use body::body_of;
pub use line::{Line, NamedPart};
pub use program::{Coroutine, Program};
pub use statement::{Branch, Handler, Statement, StatementCase, StatementList};
pub use target::{Manager, Target};
