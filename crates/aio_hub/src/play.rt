//! A pump in memory, which posts what it was given.
ghost use Rattle.std.specs.Prelude.{◌≡◌};
ghost use Rattle.aio_hub.specs.Plays.{bytes_moved, ending_by, Plays, PlaysAll};

use crate::kit::{PumpKit, PumpReports};
use crate::launch::Launch;
use aio_inbox::{Inbox, InboxName, PostKind, Poster, Posting};
use aio_lane::Tail;
use aio_pump::{Ending, PumpReport};
use std::collections::VecDeque;
use std::sync::Wait;

// How many bytes the pump moved that posts this.
fn bytes_moved(kind: &PostKind) -> u64
    ensures { result ≡ bytes_moved kind.now }
{
    match kind {
        PostKind::Piece { bytes, .. } => bytes.items().len() as u64,
        PostKind::End(_) => 0,
        PostKind::Room => 0,
        PostKind::Broken => 0,
        PostKind::Exit(_) => 0,
        PostKind::Fault => 0,
        PostKind::Starved => 0,
    }
}

// Why the pump ended whose last post was this.
fn ending_by(kind: &PostKind) -> Ending
    ensures { result ≡ ending_by kind.now }
{
    match kind {
        PostKind::Piece { .. } => Ending::Stopped,
        PostKind::End(_) => Ending::Ended,
        PostKind::Room => Ending::Stopped,
        PostKind::Broken => Ending::Failed,
        PostKind::Exit(_) => Ending::Ended,
        PostKind::Fault => Ending::Failed,
        PostKind::Starved => Ending::Memory,
    }
}

// Posts these kinds in order, up to one that the inbox doesn't take, and reports what it did.
fn play<N: InboxName, R: Wait>(
    rt: &R,
    inbox: &Inbox<N>,
    poster: Poster<N>,
    tail: Option<Tail>,
    kinds: Vec<PostKind>,
) -> PumpReport<Poster<N>>
    ensures { Plays kinds.items poster tail result }
{
    let mut seat = poster;
    let mut moved = 0u64;
    let mut ending = Ending::Stopped;
    let mut left = VecDeque::from(kinds);
    while let Some(kind) = left.pop_front() {
        let size = bytes_moved(&kind);
        let by = ending_by(&kind);
        match inbox.post(rt, &mut seat, kind) {
            Posting::Posted => {
                moved = moved.saturating_add(size);
                ending = by;
            }
            Posting::Full(_) => {
                return PumpReport {
                    poster: seat,
                    tail,
                    moved,
                    ending,
                };
            }
            Posting::Spent(_) => {
                return PumpReport {
                    poster: seat,
                    tail,
                    moved,
                    ending: Ending::Spent,
                };
            }
        }
    }
    PumpReport {
        poster: seat,
        tail,
        moved,
        ending,
    }
}

/// The pumps of a child post what the launch says, seat by seat.
pub(crate) fn play_all<N: InboxName, R: Wait>(
    rt: &R,
    kit: PumpKit<Inbox<N>, Poster<N>>,
    launch: Launch,
) -> PumpReports<Poster<N>>
    ensures { PlaysAll launch kit result }
{
    let PumpKit {
        child: _,
        inbox,
        stdin,
        out,
        errs,
        stdin_seat,
        out_seat,
        errs_seat,
        exit_seat,
    } = kit;
    let Launch {
        stdin: to_stdin,
        out: to_out,
        errs: to_errs,
        exit: to_exit,
    } = launch;
    PumpReports {
        stdin: play(rt, &inbox, stdin_seat, Some(stdin), to_stdin),
        out: play(rt, &inbox, out_seat, Some(out), to_out),
        errs: play(rt, &inbox, errs_seat, Some(errs), to_errs),
        exit: play(rt, &inbox, exit_seat, None, to_exit),
    }
}
