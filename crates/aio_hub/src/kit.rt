//! What the pumps of a child are given, and what they give back. Both are generic in the types of the
//! inbox and of its posters, so that a trait's method takes them without a bound.
use aio_lane::Tail;
use aio_pump::{Ending, PumpReport};
use std::alloc::Global;
use std::sync::Arc;

/// What a launch is given for the four pumps of a child: its number, the inbox, the lanes of its
/// standard input, output and error, and a seat for each pump.
#[derive(Drop)]
pub struct PumpKit<Inbox, Poster> {
    pub child: u32,
    pub inbox: Arc<Inbox, Global>,
    pub stdin: Tail,
    pub out: Tail,
    pub errs: Tail,
    pub stdin_seat: Poster,
    pub out_seat: Poster,
    pub errs_seat: Poster,
    pub exit_seat: Poster,
}

/// What the four pumps of a child gave back when they had ended.
#[derive(Drop)]
pub struct PumpReports<Poster> {
    pub stdin: PumpReport<Poster>,
    pub out: PumpReport<Poster>,
    pub errs: PumpReport<Poster>,
    pub exit: PumpReport<Poster>,
}

/// How a pump of a child ended: how many bytes it moved, at most 2^64 - 1, and why it ended.
#[derive(Clone, Copy, PartialEq, Eq)]
pub struct PumpEnd {
    pub child: u32,
    pub moved: u64,
    pub ending: Ending,
}
