//! What a pump does before it posts, and what its child's pumps report at the end.
use crate::stage::Pumps;
use aio_base::{Blob, ChildItem};
use aio_hub::{PumpKit, PumpReports};
use aio_inbox::{Inbox, InboxName, PostKind, Poster, Stream};
use aio_lane::Tail;
use aio_pump::{Ending, PumpReport};
use std::alloc::Global;
use std::sync::Wait;
use try_row::blob_of;

// Posts once. Where the inbox is full nothing is posted.
fn put<N: InboxName, R: Wait>(rt: &R, inbox: &Inbox<N>, poster: &mut Poster<N>, kind: PostKind) {
    let said = inbox.post(rt, poster, kind);
    drop(said);
}

// Takes a command from a lane; it waits for one.
fn obey<R: Wait>(rt: &R, tail: &mut Tail) {
    let command = tail.next(rt);
    drop(command);
}

/// Has the pump of a child's standard input post a Room. It takes the Write first that the post answers.
pub fn post_room<N: InboxName, R: Wait>(rt: &R, pumps: &mut Pumps<N>) {
    obey(rt, &mut pumps.stdin);
    put(rt, &pumps.inbox, &mut pumps.stdin_seat, PostKind::Room);
}

/// Has a pump of a child post what becomes this item. It takes the Go first that a piece or an end answers.
pub fn post_news<N: InboxName, R: Wait>(
    rt: &R,
    alloc: Global,
    pumps: &mut Pumps<N>,
    news: &ChildItem,
) {
    match news {
        ChildItem::Broken => put(rt, &pumps.inbox, &mut pumps.stdin_seat, PostKind::Broken),
        ChildItem::Out(bytes) => post_out(rt, pumps, piece(alloc, Stream::Out, bytes)),
        ChildItem::OutEnd => post_out(rt, pumps, PostKind::End(Stream::Out)),
        ChildItem::Errs(bytes) => post_errs(rt, pumps, piece(alloc, Stream::Errs, bytes)),
        ChildItem::ErrsEnd => post_errs(rt, pumps, PostKind::End(Stream::Errs)),
        // A code that is no code of a program isn't posted.
        ChildItem::Exit(code) => {
            if let Ok(code) = i32::try_from(*code) {
                put(rt, &pumps.inbox, &mut pumps.exit_seat, PostKind::Exit(code));
            }
        }
    }
}

fn piece(alloc: Global, stream: Stream, bytes: &Blob) -> PostKind {
    PostKind::Piece {
        stream,
        offset: 0,
        bytes: blob_of(alloc, bytes.items()),
    }
}

fn post_out<N: InboxName, R: Wait>(rt: &R, pumps: &mut Pumps<N>, kind: PostKind) {
    obey(rt, &mut pumps.out);
    put(rt, &pumps.inbox, &mut pumps.out_seat, kind);
}

fn post_errs<N: InboxName, R: Wait>(rt: &R, pumps: &mut Pumps<N>, kind: PostKind) {
    obey(rt, &mut pumps.errs);
    put(rt, &pumps.inbox, &mut pumps.errs_seat, kind);
}

fn report<N: InboxName>(poster: Poster<N>, tail: Option<Tail>) -> PumpReport<Poster<N>> {
    PumpReport {
        poster,
        tail,
        moved: 0,
        ending: Ending::Ended,
    }
}

/// What the pumps of a child give back.
pub fn reports_of<N: InboxName>(pumps: Pumps<N>) -> PumpReports<Poster<N>> {
    let PumpKit {
        child: _,
        inbox: _,
        stdin,
        out,
        errs,
        stdin_seat,
        out_seat,
        errs_seat,
        exit_seat,
    } = pumps;
    PumpReports {
        stdin: report(stdin_seat, Some(stdin)),
        out: report(out_seat, Some(out)),
        errs: report(errs_seat, Some(errs)),
        exit: report(exit_seat, None),
    }
}
