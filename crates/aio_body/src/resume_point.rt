//! What a task runs.
use aio_base::Blob;
use aio_gen::Gen;
use aio_task::{FutureId, TimerId};
use aio_transports::StreamReader;
use model_stream::ReadOp;
use model_wire::Handed;

/// What decides, as a task's step begins, what the input means.
#[derive(Drop)]
pub enum ResumePoint {
    /// Nothing: the input answers what the coroutine asked.
    Asked,
    /// A sleep, with its timer and the future that this resolves.
    Sleeping {
        timer: TimerId,
        future: FutureId,
    },
    /// The exit of a group, which waits for the tasks that are left.
    Leaving(u32),
    /// A request that was added to the loop's own and waits, under its key.
    Serving(u64),
    /// A connect, whose connection is being made, with the future that ends with it.
    Connecting {
        conn: u32,
        future: FutureId,
    },
    /// The bare `yield` of a drain.
    Yielding(Handed),
    /// A read that waits for data, on this future.
    Reading {
        from: StreamReader,
        op: ReadOp<Blob>,
        on: FutureId,
    },
    /// A read with a negative count, with what it took so far.
    ReadingAll {
        from: StreamReader,
        taken: Blob,
        on: FutureId,
    },
}

/// What takes no memory of its own, among what a task stands at.
#[derive(Clone, Copy)]
pub enum Near {
    /// The exit of a group, which waits for the tasks that are left.
    Leaving(u32),
    /// The bare `yield` of a drain.
    Yielding(Handed),
}

/// The coroutine of a task, and the request at which it stands. While its step goes on the
/// coroutine is taken out, and once the task is done there is none.
#[derive(Drop)]
pub struct Slot {
    pub coroutine: Option<Gen>,
    pub resume_point: ResumePoint,
}
