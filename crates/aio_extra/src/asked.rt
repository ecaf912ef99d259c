//! What comes of a request that is added.
use aio_base::{Blob, Exc, Value};
use aio_task::FutureId;

/// What comes of a request that is added, or of its wait.
#[derive(Drop)]
pub enum Asked {
    /// The coroutine goes on with a value.
    Answer(Value),
    /// Or with an exception that is raised in it.
    Raise(Exc),
    /// The task waits for this future, and the request is kept under this key.
    Wait { on: FutureId, key: u64 },
    /// The outside is asked `extra CODE BYTES`, in the middle of the step, and what it answers wakes
    /// the request under this key.
    Outside { code: i64, bytes: Blob, key: u64 },
}
