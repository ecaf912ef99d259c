//! What passes on an inbox's queue know. No value of these types is made: they stand in contracts
//! alone.
use crate::post::Post;
use std::collections::LinkedList;

/// What a poster's pass knows: its seat, and what was posted on it.
pub struct PosterView {
    pub seat: u32,
    pub posted: LinkedList<Post>,
}

/// A seat whose poster was settled: what was posted on it, and how many takes had found nothing by
/// then.
pub struct SettledSeat {
    pub seat: u32,
    pub posted: LinkedList<Post>,
    pub nones: u64,
}

/// What the taker's pass knows: what was taken, the settled seats, how many seats were made, and how
/// many takes found nothing.
pub struct TakerView {
    pub taken: LinkedList<Post>,
    pub settled: LinkedList<SettledSeat>,
    pub seats: u32,
    pub nones: u64,
}

/// What a pass on the queue knows.
pub enum InboxView {
    Posts(PosterView),
    Takes(TakerView),
    /// A pass that is given back, or was made to be counted.
    Nobody,
}
