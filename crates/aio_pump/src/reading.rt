//! The pump of a child's output.
ghost use Rattle.aio_pump.specs.Moments.{moment};
ghost use Rattle.aio_pump.specs.Reading.{PumpedOut, ObeysOut, Goes};

use crate::bell::Bell;
use crate::put::put;
use crate::report::{Ending, PumpReport};
use aio_inbox::{Inbox, InboxName, PostKind, Poster};
use aio_lane::{Command, Tail};
use aio_wire::{Source, SourceGot};
use model_pump::Stream;
use std::alloc::Global;
use std::sync::Wait;

/// How many bytes one piece has at most.
const PIECE: usize = 65_536;

/// Serves one stream of a child: at each Go it reads once, and posts the piece or the end. A Write is no command to it.
/// It waits for commands, and while the inbox is full.
pub fn pump_out<R: Wait, N: InboxName, S: Source, B: Bell>(
    rt: &R,
    alloc: Global,
    tail: Tail,
    source: &mut S,
    inbox: &Inbox<N>,
    poster: Poster<N>,
    stream: Stream,
    bell: &mut B,
) -> PumpReport<Poster<N>>
    ensures { PumpedOut stream tail (moment (S.seen source.old) poster (B.rings bell.old) 0)
        (moment (S.seen source.new) result.poster (B.rings bell.new) result.moved)
        result.tail result.ending }
{
    let mut own = tail;
    let mut seat = poster;
    let mut moved = 0u64;
    for _ in rt.forever() {
        let command = own.next(rt);
        let (now, end) = obey(
            rt, alloc, command, source, inbox, &mut seat, stream, bell, moved,
        );
        moved = now;
        if let Some(ending) = end {
            return PumpReport {
                poster: seat,
                tail: Some(own),
                moved,
                ending,
            };
        }
    }
    unreachable!()
}

// One command: what was moved by then, and how the pump ends, where it does.
fn obey<R: Wait, N: InboxName, S: Source, B: Bell>(
    rt: &R,
    alloc: Global,
    command: Command,
    source: &mut S,
    inbox: &Inbox<N>,
    poster: &mut Poster<N>,
    stream: Stream,
    bell: &mut B,
    moved: u64,
) -> (u64, Option<Ending>)
    ensures { ObeysOut stream command
        (moment (S.seen source.old) poster.old (B.rings bell.old) moved)
        (moment (S.seen source.new) poster.new (B.rings bell.new) result.0) result.1 }
{
    match command {
        Command::Go => return go(rt, alloc, source, inbox, poster, stream, bell, moved),
        Command::Write(_) => return (moved, None),
        Command::Close => return (moved, Some(Ending::Ended)),
        Command::Stop => return (moved, Some(Ending::Stopped)),
    }
}

// One Go: what was moved by then, and how the pump ends, where it does.
fn go<R: Wait, N: InboxName, S: Source, B: Bell>(
    rt: &R,
    alloc: Global,
    source: &mut S,
    inbox: &Inbox<N>,
    poster: &mut Poster<N>,
    stream: Stream,
    bell: &mut B,
    moved: u64,
) -> (u64, Option<Ending>)
    ensures { Goes stream (moment (S.seen source.old) poster.old (B.rings bell.old) moved)
        (moment (S.seen source.new) poster.new (B.rings bell.new) result.0) result.1 }
{
    match source.read(alloc, PIECE) {
        Err(_) => {
            if put(rt, inbox, poster, bell, PostKind::Starved) {
                (moved, Some(Ending::Memory))
            } else {
                (moved, Some(Ending::Spent))
            }
        }
        Ok(SourceGot::Failed) => {
            if put(rt, inbox, poster, bell, PostKind::Fault) {
                (moved, Some(Ending::Failed))
            } else {
                (moved, Some(Ending::Spent))
            }
        }
        Ok(SourceGot::End) => {
            if put(rt, inbox, poster, bell, PostKind::End(stream)) {
                (moved, Some(Ending::Ended))
            } else {
                (moved, Some(Ending::Spent))
            }
        }
        Ok(SourceGot::Bytes(bytes)) => {
            let count = bytes.items().len() as u64;
            let piece = PostKind::Piece {
                stream,
                offset: moved,
                bytes,
            };
            if put(rt, inbox, poster, bell, piece) {
                (moved.saturating_add(count), None)
            } else {
                (moved, Some(Ending::Spent))
            }
        }
    }
}
