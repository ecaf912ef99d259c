//! Posters that post again where they find the inbox full.
ghost use Rattle.std.specs.Prelude.{◌≡◌, ◌<◌, ◌^◌, ◌+◌, [], length};

use aio_inbox::{Inbox, InboxName, PostKind, Poster, Posting};
use std::sync::Wait;
use std::thread;

/// The code of the exit that is a seat's post of this number, so that a taker can tell it.
pub fn code_at(number: u32) -> i32 {
    (number % 1000) as i32
}

/// Posts, and posts the same again as long as the inbox is full.
fn post_again<N: InboxName, R: Wait>(
    rt: &R,
    inbox: &Inbox<N>,
    poster: &mut Poster<N>,
    kind: PostKind,
)
    requires { length poster.old.posted < 2 ^ 32 }
    ensures { length poster.new.posted ≡ length poster.old.posted + 1 }
{
    let mut next = kind;
    for _ in rt.forever() {
        match inbox.post(rt, poster, next) {
            Posting::Posted => return,
            Posting::Full(back) => {
                next = back;
                thread::yield_now();
            }
            Posting::Spent(_) => unreachable!(),
        }
    }
    unreachable!()
}

/// Makes so many posts on a new seat.
pub fn post_all<N: InboxName, R: Wait>(
    rt: &R,
    inbox: &Inbox<N>,
    mut poster: Poster<N>,
    posts: u32,
) -> Poster<N>
    requires { poster.posted ≡ [] }
    ensures { length result.posted ≡ posts }
{
    for number in 0..posts {
        post_again(rt, inbox, &mut poster, PostKind::Exit(code_at(number)));
    }
    poster
}
