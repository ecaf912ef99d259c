//! A post that is made again while the inbox is full, and the ring that follows it.
ghost use Rattle.aio_pump.specs.Moments.{Puts};

use crate::bell::Bell;
use aio_inbox::{Inbox, InboxName, PostKind, Poster, Posting};
use std::sync::Wait;

/// Posts, and rings once. While the inbox is full it sleeps until a post is taken. False where the poster is spent, and then nothing was posted or rung.
pub(crate) fn put<R: Wait, N: InboxName, B: Bell>(
    rt: &R,
    inbox: &Inbox<N>,
    poster: &mut Poster<N>,
    bell: &mut B,
    kind: PostKind,
) -> bool
    ensures { Puts result kind poster.old poster.new (B.rings bell.old) (B.rings bell.new) }
{
    let mut left = kind;
    for _ in rt.forever() {
        let takes = inbox.takes();
        match inbox.post(rt, poster, left) {
            Posting::Posted => {
                bell.ring();
                return true;
            }
            Posting::Full(back) => {
                left = back;
                inbox.wait_for_room(rt, takes);
            }
            Posting::Spent(_) => return false,
        }
    }
    unreachable!()
}
