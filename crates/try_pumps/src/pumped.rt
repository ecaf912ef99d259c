//! A pump of a child's output, run over a source.

use crate::shown::{Told, told_of};
use aio_inbox::{Inbox, InboxName, Poster};
use aio_lane::Tail;
use aio_pump::{MemBell, pump_out};
use aio_wire::Source;
use model_pump::Stream;
use std::alloc::Global;
use std::sync::Wait;

/// What the pump tells that takes its commands from this lane.
pub fn pumped<N: InboxName, R: Wait, S: Source>(
    rt: &R,
    alloc: Global,
    tail: Tail,
    source: &mut S,
    inbox: &Inbox<N>,
    poster: Poster<N>,
) -> Told {
    let mut bell = MemBell::new();
    let report = pump_out(
        rt,
        alloc,
        tail,
        source,
        inbox,
        poster,
        Stream::Out,
        &mut bell,
    );
    told_of(report, &bell)
}
