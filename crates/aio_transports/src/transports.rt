//! All that was opened in a run.
mod callbacks;
mod closing;
mod known;
mod opening;
mod reading;
mod remaining;
mod watching;
mod writing;

use aio_children::Children;
use aio_stream::Streams;
use remaining::Remaining;
use std::marker::Model;

/// The listeners, the connections and the children of a run, each kind by number, and the order in
/// which they were opened.
#[derive(Drop)]
pub struct Transports {
    // listeners and connections, and the order of opening, children too
    streams: Streams,
    children: Children,
    // what may still be watched
    remaining: Remaining,
}

impl Model for Transports {
    ghost use Rattle.aio_transports.specs.Kept.{Kept, kept_all};
    ghost use Rattle.aio_transports.specs.Code.{coded_kept};

    ghost Value = { Kept };

    ghost coded = { coded_kept };

    ghost view = { λ t. kept_all t.streams t.children t.remaining };
}
