use crate::stream::Stream;

/// What a pump posts. `B` is the type of bytes: a list in definitions, and a type of its own in code.
#[derive(Drop)]
pub enum PostKind<B> {
    /// Bytes that a stream gave, which stand at this place of it, from 0.
    Piece {
        stream: Stream,
        offset: u64,
        bytes: B,
    },
    /// A stream gives no more.
    End(Stream),
    /// A Write was written whole.
    Room,
    /// A Write could not be written.
    Broken,
    /// A child ended with this code.
    Exit(i32),
    /// The pump's source or exit failed.
    Fault,
    /// Memory was refused to the pump.
    Starved,
}

/// A post with its seat, and its number among the posts of this seat, from 0.
#[derive(Drop)]
pub struct Post<B> {
    pub seat: u32,
    pub number: u64,
    pub kind: PostKind<B>,
}
