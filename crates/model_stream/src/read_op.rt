/// An operation on a reader. `B` is the type of bytes: a list in definitions, and a type of its own in code.
/// Source: `streams.py`, StreamReader: `read`, `readexactly`, `readuntil`, `readline`.
#[derive(Drop)]
pub enum ReadOp<B> {
    UpTo(u64),
    Exactly(i64),
    Until(B),
    Line,
}

/// What an operation on a reader answers. `B` is the type of bytes and `E` that of exceptions.
#[derive(Drop)]
pub enum Taken<B, E> {
    Bytes(B),
    Raises(E),
    /// Too little is held so far.
    Needs,
}
