//! What a program does with what it reads.

/// What a program does with its standard input.
#[derive(Clone, Copy, PartialEq, Eq)]
pub(crate) enum Reading {
    /// It says it again, as it comes.
    Copies,
    /// It says its lines in order, once it has heard the end.
    Sorts,
    /// It doesn't read.
    Ignores,
}

/// What a program does by itself, one after the other.
#[derive(Drop)]
pub(crate) enum Step {
    /// It writes to its standard output.
    Say(Vec<u8>),
    /// It writes to its standard error.
    Complain(Vec<u8>),
    /// It takes so many milliseconds.
    Sleep(u32),
    /// It leaves a program that holds its pipes for so many milliseconds more.
    Leave(u32),
    /// It ends with a code.
    End(i64),
    /// It reads to the end of its standard input, and ends.
    Read(Reading),
}
