//! What a pump reports when it has ended.

use aio_lane::Tail;

/// Why a pump ended.
#[derive(Clone, Copy, PartialEq, Eq)]
pub enum Ending {
    /// The source ended, Close came, or the exit was posted.
    Ended,
    /// Stop came.
    Stopped,
    /// The source, the sink or the exit failed: its count of faults rose, or stands at its last value.
    Failed,
    /// A post was answered Spent.
    Spent,
    /// Memory was refused.
    Memory,
}

/// What a pump gives back: its poster, of the type `Poster`; its tail, where it has one; how many bytes it moved, at most
/// 2^64 - 1; and why it ended.
#[derive(Drop)]
pub struct PumpReport<Poster> {
    pub poster: Poster,
    pub tail: Option<Tail>,
    pub moved: u64,
    pub ending: Ending,
}
