//! An inbox that has no name yet.
ghost use Rattle.std.specs.Prelude.{◌≡◌};
ghost use Rattle.crossbeam_queue.specs.Passes.{view, IsPassOf, ruled_capacity};
ghost use Rattle.aio_inbox.specs.Views.{first_view};

use crate::delivery::{InboxPass, InboxQueue};
use aio_base::Memory;
use std::alloc::Global;

/// How many posts an inbox holds.
const CAPACITY: usize = 1024;

/// An empty queue, for an inbox that has no name and no seats yet.
#[derive(Drop)]
pub struct UnnamedInbox {
    pub(crate) queue: InboxQueue,
    pub(crate) pass: InboxPass,
    pub ghost sized: { ruled_capacity queue ≡ 1024 },
    pub ghost passes: { IsPassOf queue pass },
    pub ghost empty: { view pass ≡ first_view },
}

impl UnnamedInbox {
    /// Makes the queue. `Memory` where memory was refused.
    pub fn new(alloc: Global) -> Result<UnnamedInbox, Memory> {
        let (queue, pass) = InboxQueue::ruled(alloc, CAPACITY)?;
        Ok(UnnamedInbox { queue, pass })
    }
}
