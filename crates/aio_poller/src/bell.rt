//! What wakes the poller from another thread.
ghost use Rattle.std.specs.Prelude.{◌≡◌, Some, IfOk};

use crate::wakes::{Wakes, wake};
use aio_pump::Bell;
use mio::Waker;
use std::alloc::{AllocError, Global};
use std::sync::Arc;

/// A bell of the poller that it was made of. It tells how often it was rung, and no clause says that anybody is woken.
#[derive(Drop)]
pub struct PollerBell {
    waker: Arc<Waker, Global>,
    wakes: Wakes,
}

impl PollerBell {
    /// It was not rung so far.
    pub fn of(waker: Arc<Waker, Global>) -> PollerBell
        ensures { result.wakes ≡ 0 }
    {
        PollerBell {
            waker,
            wakes: Wakes::none(),
        }
    }

    /// Another bell of the same poller, for another thread. It was not rung so far.
    pub fn again(&self) -> Result<PollerBell, AllocError>
        ensures { IfOk result (λ bell. bell.wakes ≡ 0) }
    {
        Ok(PollerBell::of(Arc::try_clone(&self.waker)?))
    }
}

impl Bell for PollerBell {
    ghost rings = { λ bell. Some bell.wakes };

    /// Ends the poll that is under way, or else the next.
    fn ring(&mut self) {
        self.wakes.count(wake(&self.waker));
    }
}
