/// What a write answers.
#[derive(Clone, Copy, PartialEq, Eq)]
pub enum Wrote {
    Done,
    /// The end was written before.
    AfterEof,
}

/// What a drain does next. `E` is the type of exceptions.
/// Source: `streams.py`, `StreamWriter.drain` and `FlowControlMixin._drain_helper`.
#[derive(Drop)]
pub enum Drain<E> {
    /// Writing isn't paused.
    Goes,
    /// The connection is closing: one bare `yield` comes first.
    Yields,
    /// Writing is paused: it waits on this future.
    Waits(u64),
    Raises(E),
}

/// What a read of a stream does next. `B` is the type of bytes and `E` that of exceptions.
#[derive(Drop)]
pub enum StreamGot<B, E> {
    Bytes(B),
    Raises(E),
    /// Too little is held so far: it waits on this future.
    Waits(u64),
}

/// What a wait for a child's exit does next.
#[derive(Clone, Copy, PartialEq, Eq)]
pub enum ChildWait {
    /// The exit code; -N where signal N ended the child.
    Code(i64),
    Waits(u64),
}
