//! What a journal's wire owns.
use crate::handed::HandedBytes;
use crate::journal::Journal;
use aio_wire::Call;

/// What a journal's wire owns: the journal as far as it was read; the calls that it was asked; the
/// bytes that it handed on; and whether memory was refused, after which it answers nothing more.
#[derive(Drop)]
pub struct Buffers {
    pub journal: Journal,
    pub asked: Vec<Call>,
    pub handed: HandedBytes,
    pub is_spent: bool,
}

/// What a journal's wire owns that keeps nothing of what it was asked: the journal as far as it was
/// read, and whether memory was refused.
#[derive(Drop)]
pub struct Answers {
    pub journal: Journal,
    pub is_spent: bool,
}
