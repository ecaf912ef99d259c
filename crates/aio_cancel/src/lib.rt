//! Cancel requests and the search for a cycle over the queue, the futures and the tasks, without
//! recursion and without asking for memory.
#![tactic(auto)]

mod awaitables;
mod cycle;
mod marks;
mod notes;
mod quiet;
mod stack;
mod task;
mod walk;

pub use awaitables::Awaitables;
pub use cycle::leads;
pub use marks::Marks;
pub use notes::{Note, Notes};
pub use stack::WalkStack;
pub use task::Task;
pub use walk::cancel;
