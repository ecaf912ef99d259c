//! A pump that meets a full inbox.

use crate::pump_row::exited;
use crate::shown::{posts_room, take};
use aio_inbox::{Inbox, InboxName, Poster, Taker};
use aio_pump::Ending;
use std::alloc::Global;
use std::sync::Wait;
use std::thread;
use std::thread::Threads;

// Posts so often that the inbox is full.
fn fill<N: InboxName, R: Wait>(rt: &R, inbox: &Inbox<N>, filler: &mut Poster<N>) -> bool {
    for _ in 0..1024 {
        if !posts_room(rt, inbox, filler) {
            return false;
        }
    }
    !posts_room(rt, inbox, filler)
}

// Takes until a post of seat 1 comes, and says after how many others it came.
fn others_before<N: InboxName, R: Wait>(rt: &R, inbox: &Inbox<N>, taker: &mut Taker<N>) -> u64 {
    let mut others = 0u64;
    for _ in rt.forever() {
        match take(rt, inbox, taker) {
            Some(post) => {
                let seat = post.seat;
                drop(post);
                if seat == 1 {
                    break;
                }
                others = others.saturating_add(1);
            }
            None => thread::yield_now(),
        }
    }
    others
}

/// A pump that begins over a full inbox posts once there is room, after those that were there.
pub fn waits_for_room<N: InboxName + Send + Sync, R: Threads + Wait + Sync>(
    rt: &R,
    alloc: Global,
    inbox: &Inbox<N>,
    taker: &mut Taker<N>,
    filler: Poster<N>,
    poster: Poster<N>,
) -> bool {
    let mut own = filler;
    let filled = fill(rt, inbox, &mut own);
    drop(own);
    let (told, others) = thread::join(
        rt,
        move || exited(rt, alloc, &[], inbox, poster),
        move || others_before(rt, inbox, taker),
    );
    filled && others == 1024 && told.ending == Ending::Ended && told.rings == 1
}
