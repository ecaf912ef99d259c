//! Single posts and takes, which leave nothing to let go.
ghost use Rattle.std.specs.Prelude.{All, IfNone};
ghost use Rattle.aio_inbox.specs.Accounts.{IsWhole};

use aio_inbox::{Inbox, InboxName, Post, PostKind, Poster, Posting, Taker};
use std::sync::Wait;

/// What came of a post.
#[derive(Clone, Copy)]
pub enum Outcome {
    Posted,
    /// The inbox was full, and the same came back.
    Full,
    /// Something else came back, or there is no such seat.
    Lost,
}

/// A post that was taken: of which seat, with which number, and the code where it is an exit.
#[derive(Clone, Copy)]
pub struct Taken {
    pub seat: u32,
    pub number: u64,
    pub code: Option<i32>,
}

fn kind_of(code: Option<i32>) -> PostKind {
    match code {
        Some(code) => PostKind::Exit(code),
        None => PostKind::Room,
    }
}

fn code_of(kind: &PostKind) -> Option<i32> {
    match kind {
        PostKind::Exit(code) => Some(*code),
        PostKind::Room
        | PostKind::Piece { .. }
        | PostKind::End(_)
        | PostKind::Broken
        | PostKind::Fault
        | PostKind::Starved => None,
    }
}

fn outcome_of(said: &Posting, code: Option<i32>) -> Outcome {
    match said {
        Posting::Posted => Outcome::Posted,
        Posting::Full(back) if code_of(back) == code => Outcome::Full,
        Posting::Full(_) | Posting::Spent(_) => Outcome::Lost,
    }
}

/// Posts once: an exit with this code, or a Room where there is none.
pub fn put<N: InboxName, R: Wait>(
    rt: &R,
    inbox: &Inbox<N>,
    poster: &mut Poster<N>,
    code: Option<i32>,
) -> Outcome {
    let said = inbox.post(rt, poster, kind_of(code));
    let outcome = outcome_of(&said, code);
    drop(said);
    outcome
}

fn taken_of(post: Post) -> Taken {
    let Post { seat, number, kind } = post;
    let code = code_of(&kind);
    drop(kind);
    Taken { seat, number, code }
}

/// Takes once.
pub fn take<N: InboxName, R: Wait>(rt: &R, inbox: &Inbox<N>, taker: &mut Taker<N>) -> Option<Taken>
    ensures { IfNone result (All (IsWhole taker.new) taker.new.settled) }
{
    match inbox.take(rt, taker) {
        Some(post) => Some(taken_of(post)),
        None => None,
    }
}
