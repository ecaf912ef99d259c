/// The words of a journal's entries.
#[derive(Clone, Copy, PartialEq, Eq)]
pub enum EntryWord {
    Turn,
    Done,
    Refused,
    Conn,
    Again,
    Broken,
    Data,
    Eof,
    Took,
    Child,
    Extra,
    Read,
    Write,
    Both,
    Up,
    Down,
    Out,
    OutEnd,
    Errs,
    ErrsEnd,
    Exit,
    /// `X`, before an item for the requests that are added to the loop's own.
    News,
}

/// What an id names.
#[derive(Clone, Copy, PartialEq, Eq)]
pub enum IdLetter {
    Server,
    Conn,
    Child,
}

/// What stands in an entry between spaces. `B` is the type of bytes: a list in definitions, and a
/// type of its own in code.
#[derive(Drop)]
pub enum EntryToken<B> {
    Word(EntryWord),
    Id { letter: IdLetter, number: u32 },
    /// A number in digits alone.
    Number(u64),
    /// A minus sign and a number in digits.
    Minus(u64),
    Bytes(B),
    /// A number that is too great, or too small.
    TooWide,
    /// Nothing that an entry may hold.
    Other,
}
