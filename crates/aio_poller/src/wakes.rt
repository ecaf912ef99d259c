//! Wakes of the poller, and how many there were.
ghost use Rattle.std.specs.Prelude.{◌≡◌};
ghost use Rattle.model_hub.specs.Told.{one_more};

use mio::Waker;
use std::marker::Model;

/// That the poller was woken. Only `wake` makes one.
#[derive(Drop)]
pub struct Woken(());

/// Ends the poll that is under way, or else the next. Where the system refuses that, nobody is told: whoever polls next
/// takes the post.
/// Source: `selector_events.py`, `_write_to_self`.
pub fn wake(waker: &Waker) -> Woken {
    let _ = waker.wake();
    Woken(())
}

/// How many wakes there were, up to 2^64 - 1. Contracts see their number. It rises by a wake, and by nothing else.
#[derive(Drop)]
pub struct Wakes {
    count: u64,
}

impl Model for Wakes {
    ghost use Rattle.std.specs.Prelude.{ℕ};

    ghost Value = { ℕ };

    ghost view = { λ wakes. wakes.count };
}

impl Wakes {
    /// No wake was counted yet.
    pub fn none() -> Wakes
        ensures { result ≡ 0 }
    {
        Wakes { count: 0 }
    }

    /// Counts this wake.
    pub fn count(&mut self, _wake: Woken)
        ensures { self.new ≡ one_more self.old }
    {
        self.count = self.count.saturating_add(1);
    }
}
