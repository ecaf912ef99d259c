//! The pump of a child's exit.
ghost use Rattle.std.specs.Prelude.{◌≡◌, None};
ghost use Rattle.aio_pump.specs.Moments.{moment};
ghost use Rattle.aio_pump.specs.Exits.{PumpedExit};

use crate::bell::Bell;
use crate::exit::{ExitSource, Exited};
use crate::put::put;
use crate::report::{Ending, PumpReport};
use aio_inbox::{Inbox, InboxName, PostKind, Poster};
use std::alloc::Global;
use std::sync::Wait;

/// Waits for a child's exit, and posts it. It has no lane, and moves no bytes. It waits for the exit, and while the inbox
/// is full; it takes no memory, and `_alloc` is there as in the calls beside it.
pub fn pump_exit<R: Wait, N: InboxName, E: ExitSource, B: Bell>(
    rt: &R,
    _alloc: Global,
    exit: &mut E,
    inbox: &Inbox<N>,
    poster: Poster<N>,
    bell: &mut B,
) -> PumpReport<Poster<N>>
    ensures pumped { PumpedExit (moment (E.seen exit.old) poster (B.rings bell.old) 0)
        (moment (E.seen exit.new) result.poster (B.rings bell.new) result.moved) result.ending }
    ensures tail { result.tail ≡ None }
{
    let mut seat = poster;
    let (kind, end) = match exit.wait() {
        Exited::Code(code) => (PostKind::Exit(code), Ending::Ended),
        Exited::Failed => (PostKind::Fault, Ending::Failed),
    };
    let ending = if put(rt, inbox, &mut seat, bell, kind) {
        end
    } else {
        Ending::Spent
    };
    PumpReport {
        poster: seat,
        tail: None,
        moved: 0,
        ending,
    }
}
