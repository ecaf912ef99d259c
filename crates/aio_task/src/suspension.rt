//! What becomes of an await.

/// A task awaits a future that isn't done: it waits, or the await would never end.
#[derive(Clone, Copy, PartialEq, Eq)]
pub enum Suspension {
    Suspended,
    /// The future is the task's own or leads to it.
    /// RuntimeError is thrown into the task's next step.
    Cycle,
}
