//! What may still be watched of all that was opened.
ghost use Rattle.std.specs.Prelude.{◌≡◌, [], OnOk};
ghost use Rattle.aio_stream.specs.Kept.{all_opened, opened_as};
ghost use Rattle.aio_transports.specs.Kept.{all_seen, remaining_of, since};
ghost use Rattle.aio_transports.specs.Watched.{gone_of, without_gone};

use aio_base::Memory;
use aio_children::Children;
use aio_stream::{Opened, Streams};
use std::alloc::Global;
use std::marker::Model;

/// Of what was opened, what may still be watched, in order. A select costs what stands here, and
/// what was opened since the last one.
#[derive(Drop)]
pub struct Remaining {
    those: Vec<Opened>,
    // of so many of all that was opened
    seen: usize,
}

impl Model for Remaining {
    ghost use Rattle.aio_stream.specs.Kept.{all_opened};
    ghost use Rattle.aio_transports.specs.Kept as definitions;
    ghost use Rattle.aio_transports.specs.Code.{coded_remaining};

    ghost Value = { definitions.Remaining };

    ghost coded = { coded_remaining };

    ghost view = { λ r. definitions.remaining_of (all_opened r.those.items) r.seen };
}

impl Remaining {
    /// Nothing was opened so far.
    pub fn new(alloc: Global) -> Remaining
        ensures { result ≡ remaining_of [] 0 }
    {
        Remaining {
            those: Vec::new(alloc),
            seen: 0,
        }
    }

    /// What may still be watched, of what was seen.
    pub fn those(&self) -> &[Opened]
        ensures { all_opened result.now ≡ self.now.those }
    {
        &self.those
    }

    /// What was opened since.
    pub fn since<'a>(&self, opened: &'a [Opened]) -> &'a [Opened]
        ensures { all_opened result.now ≡ since (all_opened opened.now) self.now }
    {
        match opened.split_at_checked(self.seen) {
            Some((_, since)) => since,
            None => &[],
        }
    }

    /// What was opened since is seen.
    pub fn see(&mut self, opened: &[Opened]) -> Result<(), Memory>
        ensures { OnOk result (self.new ≡ all_seen (all_opened opened.now) self.old) }
    {
        let since = self.since(opened);
        self.those.extend_from_slice(since)?;
        self.seen = opened.len();
        Ok(())
    }

    /// What is gone is left out, for good.
    pub fn drop_gone(&mut self, streams: &Streams, children: &Children)
        ensures { self.new ≡ without_gone streams.now children.now self.old }
    {
        self.those.retain(|one| !is_gone(streams, children, *one));
    }
}

// Whether a listener is closed, or a connection or a child is over.
fn is_gone(streams: &Streams, children: &Children, one: Opened) -> bool
    ensures { result ≡ gone_of streams.now children.now (opened_as one) }
{
    match one {
        Opened::Server(id) => streams.is_closed(id),
        Opened::Conn(id) => streams.is_over(id),
        Opened::Child(id) => children.is_over(id),
    }
}
