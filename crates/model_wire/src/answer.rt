/// What the outside answers. `B` is the type of bytes and `I` that of lists of items: lists in
/// definitions, and types of their own in code.
/// Source: `selectors.py`, `select`; the library reference, `socket` and `subprocess`.
#[derive(Drop)]
pub enum Answer<B, I> {
    /// To a select: the time in milliseconds, and what came.
    Turn { now: u64, items: I },
    /// It was done.
    Done,
    /// It can't be done.
    Refused,
    /// A connection: one was accepted, or one is being made.
    Conn,
    /// Nothing now: the call would wait.
    Again,
    /// The other end is gone.
    Broken,
    /// Bytes that were received.
    Data(B),
    /// The other end sends no more.
    Eof,
    /// So many bytes of the front were taken.
    Took(u64),
    /// A child was started.
    Child,
    /// To a request that is added to the loop's own.
    Extra(B),
}
