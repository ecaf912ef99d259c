//! Two pumps of which each goes on only once a post of the other was taken.

use crate::pumped::pumped;
use crate::shown::{Told, give, take};
use aio_base::{Blob, Memory};
use aio_inbox::{Inbox, InboxName, PostKind, Poster, Taker};
use aio_lane::{Command, Tail, lane};
use aio_pump::Ending;
use aio_wire::{Source, SourceGot};
use std::alloc::Global;
use std::sync::Wait;
use std::sync::atomic::{AtomicU64, Ordering};
use std::thread;
use std::thread::Threads;

/// How often a source looks before it gives up.
const TRIES: u32 = 10_000_000;

/// Gives so many pieces of one byte, the last of them only once the word is set. Each look gives up the thread's turn.
/// Where it looked too often it ends. It tells nothing.
#[derive(Drop)]
struct Gated<'w> {
    word: &'w AtomicU64,
    left: u64,
}

impl<'w> Source for Gated<'w> {
    ghost use Rattle.std.specs.Prelude.{None};

    ghost seen = { λ source. record { left = None; faults = 0 } };

    fn read(&mut self, alloc: Global, _max: usize) -> Result<SourceGot, Memory> {
        if self.left == 0 {
            return Ok(SourceGot::End);
        }
        if self.left == 1 && !is_set(self.word) {
            self.left = 0;
            return Ok(SourceGot::End);
        }
        let byte = Vec::from_slice(alloc, b"x")?;
        self.left -= 1;
        Ok(SourceGot::Bytes(Blob::of(byte)))
    }
}

fn is_set(word: &AtomicU64) -> bool {
    for _ in 0..TRIES {
        if word.load(Ordering::SeqCst) == 1 {
            return true;
        }
        thread::yield_now();
    }
    false
}

/// What a pump works with, in whose lane the Gos stand for its pieces, and one for the end.
#[derive(Drop)]
struct Side<N: InboxName> {
    poster: Poster<N>,
    tail: Tail,
    pieces: u64,
}

// Nothing where memory is refused.
fn side_of<N: InboxName, R: Wait>(
    rt: &R,
    alloc: Global,
    poster: Poster<N>,
    pieces: u64,
) -> Option<Side<N>> {
    match lane(alloc) {
        Ok((head, tail)) => {
            let mut own = head;
            for _ in 0..pieces.saturating_add(1) {
                give(rt, &mut own, Command::Go);
            }
            drop(own);
            Some(Side {
                poster,
                tail,
                pieces,
            })
        }
        Err(_) => {
            drop(poster);
            None
        }
    }
}

// Whether a side's pump posts all of its pieces and the end, over a source that waits for this word.
fn is_whole<N: InboxName, R: Wait>(
    rt: &R,
    alloc: Global,
    inbox: &Inbox<N>,
    side: Side<N>,
    word: &AtomicU64,
) -> bool {
    let Side {
        poster,
        tail,
        pieces,
    } = side;
    let mut source = Gated { word, left: pieces };
    let told = pumped(rt, alloc, tail, &mut source, inbox, poster);
    is_told(told, pieces)
}

fn is_told(told: Told, pieces: u64) -> bool {
    told.moved == pieces && told.ending == Ending::Ended && told.rings == pieces.saturating_add(1)
}

// Takes until each seat posted what is no piece, which is its last, and sets the word of each seat of which a post was
// taken.
fn take_both<N: InboxName, R: Wait>(
    rt: &R,
    inbox: &Inbox<N>,
    taker: &mut Taker<N>,
    of_first: &AtomicU64,
    of_second: &AtomicU64,
) {
    let mut ends = 0u32;
    for _ in rt.forever() {
        if ends >= 2 {
            break;
        }
        match take(rt, inbox, taker) {
            Some(post) => {
                let word = if post.seat == 0 { of_first } else { of_second };
                word.store(1, Ordering::SeqCst);
                if !matches!(&post.kind, PostKind::Piece { .. }) {
                    ends = ends.saturating_add(1);
                }
                drop(post);
            }
            None => thread::yield_now(),
        }
    }
}

/// The first seat's source gives its one piece once a post of the second seat was taken; the second seat's gives one, and
/// another once a post of the first was taken. Pumps that run one after the other end with fewer pieces.
pub fn meet<N: InboxName + Send + Sync, R: Threads + Wait + Sync>(
    rt: &R,
    alloc: Global,
    inbox: &Inbox<N>,
    taker: &mut Taker<N>,
    first: Poster<N>,
    second: Poster<N>,
) -> bool {
    match side_of(rt, alloc, first, 1) {
        Some(one) => match side_of(rt, alloc, second, 2) {
            Some(two) => run(rt, alloc, inbox, taker, one, two),
            None => {
                drop(one);
                false
            }
        },
        None => {
            drop(second);
            false
        }
    }
}

fn run<N: InboxName + Send + Sync, R: Threads + Wait + Sync>(
    rt: &R,
    alloc: Global,
    inbox: &Inbox<N>,
    taker: &mut Taker<N>,
    one: Side<N>,
    two: Side<N>,
) -> bool {
    let (word_one, word_two) = (AtomicU64::new(0), AtomicU64::new(0));
    let (of_first, of_second) = (&word_one, &word_two);
    let (_, whole) = thread::join(
        rt,
        move || take_both(rt, inbox, taker, of_first, of_second),
        move || {
            thread::join(
                rt,
                move || is_whole(rt, alloc, inbox, one, of_second),
                move || is_whole(rt, alloc, inbox, two, of_first),
            )
        },
    );
    whole.0 && whole.1
}
