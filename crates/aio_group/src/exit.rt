//! What becomes of a group's exit.
use aio_base::Exc;
use aio_task::FutureId;

/// An exit waits, or has ended.
#[derive(Drop)]
pub enum GroupExit {
    /// Children are left: the exit goes on once this future is done.
    Waits(FutureId),
    /// The block's own outcome stands.
    Passes,
    Raises(Exc),
}

/// How an exit goes on, with the memory that it takes: it waits for this future, or it ends, with
/// this exception of all failures.
#[derive(Drop)]
pub enum ExitStep {
    Waits(FutureId),
    Ends(Option<Exc>),
}
