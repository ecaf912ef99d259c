//! The writing of bytes whole, and a look whether a sink takes bytes.
ghost use Rattle.aio_pump.specs.Whole.{WritesWhole, LooksAt};

use aio_wire::{Sink, SinkTook};
use std::alloc::Global;

/// How the writing of some bytes ended.
#[derive(Clone, Copy)]
pub(crate) enum Wrote {
    /// All were taken.
    Whole,
    /// The sink failed.
    Broken,
    /// Memory was refused.
    Starved,
}

/// Writes these bytes, and says how many were taken. Where not all were, those were a front.
pub(crate) fn write_whole<K: Sink>(alloc: Global, sink: &mut K, bytes: &[u8]) -> (usize, Wrote)
    ensures { WritesWhole bytes.now (K.seen sink.old) (K.seen sink.new) result.0 result.1 }
{
    let mut at = 0usize;
    while at < bytes.len() {
        match sink.write(alloc, &bytes[at..]) {
            Ok(SinkTook::Took(count)) => at += count,
            Ok(SinkTook::Failed) => return (at, Wrote::Broken),
            Err(_) => return (at, Wrote::Starved),
        }
    }
    (at, Wrote::Whole)
}

/// Looks whether the sink still takes bytes, by a piece of none: whole, where it does.
#[tactic(auto, using(crate::proofs::Fronts::takes_none))]
pub(crate) fn look_at<K: Sink>(alloc: Global, sink: &mut K) -> Wrote
    ensures { LooksAt (K.seen sink.old) (K.seen sink.new) result }
{
    match sink.write(alloc, &[]) {
        Ok(SinkTook::Took(_)) => Wrote::Whole,
        Ok(SinkTook::Failed) => Wrote::Broken,
        Err(_) => Wrote::Starved,
    }
}
