//! The loop's parts between two callbacks.
ghost use Rattle.try_loop.specs.Still.{IsStill};

use aio_base::Memory;
use aio_task::{FutureId, Parts};
use std::alloc::Global;

/// The parts while no step is called and no task runs.
#[derive(Drop)]
pub struct Still {
    parts: Parts,
    ghost still: { IsStill parts },
}

impl Still {
    /// Parts in which no task runs.
    pub fn new(alloc: Global) -> Result<Still, Memory> {
        let parts = Parts::new(alloc, 1)?;
        Ok(Still { parts })
    }

    /// The parts, to be looked at.
    pub fn parts(&self) -> &Parts {
        &self.parts
    }

    /// Makes a plain future.
    pub fn plain(&mut self, alloc: Global) -> Result<FutureId, Memory> {
        self.parts.new_plain(alloc)
    }

    /// Makes a future that stands for two.
    pub fn many(
        &mut self,
        alloc: Global,
        one: FutureId,
        other: FutureId,
    ) -> Result<FutureId, Memory> {
        let members = vec![in alloc; one, other]?;
        self.parts.new_many(alloc, members)
    }

    /// Asks for a cancel: whether there was anything to cancel.
    pub fn cancel(&mut self, id: FutureId) -> bool {
        self.parts.cancel(id)
    }
}
