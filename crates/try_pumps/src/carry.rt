//! Pieces of 65,536 bytes, from a source through a pump, an inbox and its taker.

use crate::pumped::pumped;
use crate::shown::{give, take};
use aio_base::{Blob, Memory};
use aio_inbox::{Inbox, InboxName, PostKind, Poster, Taker};
use aio_lane::{Command, Head, lane};
use aio_pump::Ending;
use aio_wire::{Source, SourceGot};
use std::alloc::Global;
use std::sync::Wait;
use std::thread;
use std::thread::Threads;

/// How many bytes each piece has.
const PIECE: usize = 65_536;

/// Gives these bytes so many times. It tells nothing.
#[derive(Drop)]
struct Repeated {
    bytes: Vec<u8>,
    left: u64,
}

impl Source for Repeated {
    ghost use Rattle.std.specs.Prelude.{None};

    ghost seen = { λ source. record { left = None; faults = 0 } };

    fn read(&mut self, alloc: Global, max: usize) -> Result<SourceGot, Memory> {
        let bytes = self.bytes.as_slice();
        let piece = &bytes[..bytes.len().min(max)];
        if self.left == 0 || piece.is_empty() {
            return Ok(SourceGot::End);
        }
        let held = Vec::from_slice(alloc, piece)?;
        self.left -= 1;
        Ok(SourceGot::Bytes(Blob::of(held)))
    }
}

// A source of so many pieces; of none where memory is refused.
fn source_of(alloc: Global, pieces: u64) -> Repeated {
    let bytes = match vec![in alloc; 7u8; PIECE] {
        Ok(bytes) => bytes,
        Err(_) => Vec::new(alloc),
    };
    Repeated {
        bytes,
        left: pieces,
    }
}

fn size_of(kind: &PostKind) -> Option<u64> {
    match kind {
        PostKind::Piece { bytes, .. } => Some(bytes.items().len() as u64),
        PostKind::End(_)
        | PostKind::Room
        | PostKind::Broken
        | PostKind::Exit(_)
        | PostKind::Fault
        | PostKind::Starved => None,
    }
}

// The size of the next piece, as it comes; nothing where another post does.
fn next_size<N: InboxName, R: Wait>(rt: &R, inbox: &Inbox<N>, taker: &mut Taker<N>) -> Option<u64> {
    for _ in rt.forever() {
        match take(rt, inbox, taker) {
            Some(post) => {
                let size = size_of(&post.kind);
                drop(post);
                return size;
            }
            None => thread::yield_now(),
        }
    }
    unreachable!()
}

// Gives a Go for each piece, takes it, and counts the bytes until the end came.
fn fetch<N: InboxName, R: Wait>(
    rt: &R,
    inbox: &Inbox<N>,
    taker: &mut Taker<N>,
    head: &mut Head,
) -> u64 {
    let mut came = 0u64;
    for _ in rt.forever() {
        give(rt, head, Command::Go);
        match next_size(rt, inbox, taker) {
            Some(size) => came = came.saturating_add(size),
            None => break,
        }
    }
    came
}

/// Whether so many pieces came whole.
pub fn carry<N: InboxName + Send + Sync, R: Threads + Wait + Sync>(
    rt: &R,
    alloc: Global,
    inbox: &Inbox<N>,
    taker: &mut Taker<N>,
    poster: Poster<N>,
    pieces: u64,
) -> bool {
    match lane(alloc) {
        Ok((head, tail)) => {
            let (mut own, mut source) = (head, source_of(alloc, pieces));
            let (gives, lent) = (&mut own, &mut source);
            let (told, came) = thread::join(
                rt,
                move || pumped(rt, alloc, tail, lent, inbox, poster),
                move || fetch(rt, inbox, taker, gives),
            );
            came == pieces.saturating_mul(PIECE as u64)
                && told.moved == came
                && told.ending == Ending::Ended
        }
        Err(_) => false,
    }
}
