//! What a row looks at: a pump's report, and the posts that were taken then.

use aio_inbox::{Inbox, InboxName, Post, PostKind, Poster, Posting, Taker};
use aio_lane::{Command, Giving, Head};
use aio_pump::{Ending, MemBell, PumpReport};
use model_pump::Stream;
use std::sync::Wait;
use std::thread;

/// How many bytes a pump moved, why it ended, and how often its bell was rung.
#[derive(Clone, Copy, PartialEq, Eq)]
pub struct Told {
    pub moved: u64,
    pub ending: Ending,
    pub rings: u64,
}

/// A post of seat 1. A piece is of the standard output; it is told by its place, its length and its last bytes.
#[derive(Clone, Copy)]
pub enum Shown {
    Piece(u64, usize, &'static [u8]),
    End,
    Room,
    Broken,
    Exit(i32),
    Fault,
}

/// What a pump told; the rest of its report is let go.
pub fn told_of<N: InboxName>(report: PumpReport<Poster<N>>, bell: &MemBell) -> Told {
    let told = Told {
        moved: report.moved,
        ending: report.ending,
        rings: bell.rings(),
    };
    drop(report);
    told
}

impl Shown {
    fn is(self, kind: &PostKind) -> bool {
        match (self, kind) {
            (
                Shown::Piece(place, length, last),
                PostKind::Piece {
                    stream,
                    offset,
                    bytes,
                },
            ) => {
                let held = bytes.items();
                *stream == Stream::Out
                    && *offset == place
                    && held.len() == length
                    && held.ends_with(last)
            }
            (Shown::End, PostKind::End(stream)) => *stream == Stream::Out,
            (Shown::Room, PostKind::Room) => true,
            (Shown::Broken, PostKind::Broken) => true,
            (Shown::Exit(code), PostKind::Exit(ended)) => code == *ended,
            (Shown::Fault, PostKind::Fault) => true,
            _ => false,
        }
    }
}

/// Takes once.
pub fn take<N: InboxName, R: Wait>(rt: &R, inbox: &Inbox<N>, taker: &mut Taker<N>) -> Option<Post> {
    inbox.take(rt, taker)
}

/// Whether these posts are taken now, numbered from 0, and then no other.
pub fn comes<N: InboxName, R: Wait>(
    rt: &R,
    inbox: &Inbox<N>,
    taker: &mut Taker<N>,
    posts: &[Shown],
) -> bool {
    let mut number = 0u64;
    for shown in posts {
        if !is_next(rt, inbox, taker, *shown, number) {
            return false;
        }
        number = number.saturating_add(1);
    }
    take(rt, inbox, taker).is_none()
}

fn is_next<N: InboxName, R: Wait>(
    rt: &R,
    inbox: &Inbox<N>,
    taker: &mut Taker<N>,
    shown: Shown,
    number: u64,
) -> bool {
    match take(rt, inbox, taker) {
        Some(post) => {
            let right = post.seat == 1 && post.number == number && shown.is(&post.kind);
            drop(post);
            right
        }
        None => false,
    }
}

/// Whether a Room is posted; it isn't where the inbox is full.
pub fn posts_room<N: InboxName, R: Wait>(rt: &R, inbox: &Inbox<N>, poster: &mut Poster<N>) -> bool {
    let said = inbox.post(rt, poster, PostKind::Room);
    let posted = matches!(&said, Posting::Posted);
    drop(said);
    posted
}

/// Gives a command, and tries again while the lane is full.
pub fn give<R: Wait>(rt: &R, head: &mut Head, command: Command) {
    let mut left = command;
    for _ in rt.forever() {
        match head.give(rt, left) {
            Giving::Given => return,
            Giving::Full(back) => {
                left = back;
                thread::yield_now();
            }
            Giving::Spent(_) => return,
        }
    }
}

/// Gives a Go so often.
pub fn give_gos<R: Wait>(rt: &R, head: &mut Head, gos: u64) {
    for _ in 0..gos {
        give(rt, head, Command::Go);
    }
}
