//! The pump of a child's input.
ghost use Rattle.aio_pump.specs.Moments.{moment};
ghost use Rattle.aio_pump.specs.Writing.{PumpedIn, ActsIn, ObeysIn, Writes, Looks};

use crate::bell::Bell;
use crate::put::put;
use crate::report::{Ending, PumpReport};
use crate::whole::{Wrote, look_at, write_whole};
use aio_base::Blob;
use aio_inbox::{Inbox, InboxName, PostKind, Poster};
use aio_lane::{Command, Tail};
use aio_wire::Sink;
use std::alloc::Global;
use std::sync::Wait;
use std::time::Clock;

/// How long a command is waited for before the sink is looked at again, in milliseconds.
const PAUSE: u64 = 64;

/// Serves a child's standard input: it writes each Write whole, and then posts Room. A Go is no command to it. While no
/// command comes it looks now and then whether the sink still takes bytes, by an empty piece. It waits for commands, and
/// while the inbox is full.
/// Source: `unix_events.py`, `_UnixWritePipeTransport._read_ready`.
pub fn pump_in<R: Wait + Clock, N: InboxName, K: Sink, B: Bell>(
    rt: &R,
    alloc: Global,
    tail: Tail,
    sink: &mut K,
    inbox: &Inbox<N>,
    poster: Poster<N>,
    bell: &mut B,
) -> PumpReport<Poster<N>>
    ensures { PumpedIn tail (moment (K.seen sink.old) poster (B.rings bell.old) 0)
        (moment (K.seen sink.new) result.poster (B.rings bell.new) result.moved)
        result.tail result.ending }
{
    let mut own = tail;
    let mut seat = poster;
    let mut moved = 0u64;
    for _ in rt.forever() {
        let came = own.next_within(rt, PAUSE);
        let (now, end) = act(rt, alloc, came, sink, inbox, &mut seat, bell, moved);
        moved = now;
        if let Some(ending) = end {
            return PumpReport {
                poster: seat,
                tail: Some(own),
                moved,
                ending,
            };
        }
    }
    unreachable!()
}

// One turn: what was moved by then, and how the pump ends, where it does.
fn act<R: Wait, N: InboxName, K: Sink, B: Bell>(
    rt: &R,
    alloc: Global,
    came: Option<Command>,
    sink: &mut K,
    inbox: &Inbox<N>,
    poster: &mut Poster<N>,
    bell: &mut B,
    moved: u64,
) -> (u64, Option<Ending>)
    ensures { ActsIn came (moment (K.seen sink.old) poster.old (B.rings bell.old) moved)
        (moment (K.seen sink.new) poster.new (B.rings bell.new) result.0) result.1 }
{
    match came {
        Some(command) => obey(rt, alloc, command, sink, inbox, poster, bell, moved),
        None => look(rt, alloc, sink, inbox, poster, bell, moved),
    }
}

// One look at the sink: what was moved by then, and how the pump ends, where it does.
fn look<R: Wait, N: InboxName, K: Sink, B: Bell>(
    rt: &R,
    alloc: Global,
    sink: &mut K,
    inbox: &Inbox<N>,
    poster: &mut Poster<N>,
    bell: &mut B,
    moved: u64,
) -> (u64, Option<Ending>)
    ensures { Looks (moment (K.seen sink.old) poster.old (B.rings bell.old) moved)
        (moment (K.seen sink.new) poster.new (B.rings bell.new) result.0) result.1 }
{
    let looked = look_at(alloc, sink);
    match looked {
        Wrote::Whole => (moved, None),
        Wrote::Broken => {
            if put(rt, inbox, poster, bell, PostKind::Broken) {
                (moved, Some(Ending::Failed))
            } else {
                (moved, Some(Ending::Spent))
            }
        }
        Wrote::Starved => {
            if put(rt, inbox, poster, bell, PostKind::Starved) {
                (moved, Some(Ending::Memory))
            } else {
                (moved, Some(Ending::Spent))
            }
        }
    }
}

// One command: what was moved by then, and how the pump ends, where it does.
fn obey<R: Wait, N: InboxName, K: Sink, B: Bell>(
    rt: &R,
    alloc: Global,
    command: Command,
    sink: &mut K,
    inbox: &Inbox<N>,
    poster: &mut Poster<N>,
    bell: &mut B,
    moved: u64,
) -> (u64, Option<Ending>)
    ensures { ObeysIn command (moment (K.seen sink.old) poster.old (B.rings bell.old) moved)
        (moment (K.seen sink.new) poster.new (B.rings bell.new) result.0) result.1 }
{
    match command {
        Command::Go => return (moved, None),
        Command::Write(bytes) => return write(rt, alloc, &bytes, sink, inbox, poster, bell, moved),
        Command::Close => return (moved, Some(Ending::Ended)),
        Command::Stop => return (moved, Some(Ending::Stopped)),
    }
}

// One Write: what was moved by then, and how the pump ends, where it does.
fn write<R: Wait, N: InboxName, K: Sink, B: Bell>(
    rt: &R,
    alloc: Global,
    bytes: &Blob,
    sink: &mut K,
    inbox: &Inbox<N>,
    poster: &mut Poster<N>,
    bell: &mut B,
    moved: u64,
) -> (u64, Option<Ending>)
    ensures { Writes bytes.now (moment (K.seen sink.old) poster.old (B.rings bell.old) moved)
        (moment (K.seen sink.new) poster.new (B.rings bell.new) result.0) result.1 }
{
    let (count, wrote) = write_whole(alloc, sink, bytes.items());
    let now = moved.saturating_add(count as u64);
    match wrote {
        Wrote::Whole => {
            if put(rt, inbox, poster, bell, PostKind::Room) {
                (now, None)
            } else {
                (now, Some(Ending::Spent))
            }
        }
        Wrote::Broken => {
            if put(rt, inbox, poster, bell, PostKind::Broken) {
                (now, Some(Ending::Failed))
            } else {
                (now, Some(Ending::Spent))
            }
        }
        Wrote::Starved => {
            if put(rt, inbox, poster, bell, PostKind::Starved) {
                (now, Some(Ending::Memory))
            } else {
                (now, Some(Ending::Spent))
            }
        }
    }
}
