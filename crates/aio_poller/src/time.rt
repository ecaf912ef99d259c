//! The time that a poller tells.
ghost use Rattle.std.specs.Prelude.{◌≡◌, ◌≤◌, IfOk};
ghost use Rattle.aio_poller.specs.Looks.{told_after};
ghost use Rattle.aio_poller.specs.Waits.{left_of};

use crate::look::Look;
use std::io;
use std::time::Clock;

/// Milliseconds since it was made. What it tells never falls, whatever the clock says.
#[derive(Clone, Copy)]
pub struct Time {
    start: Look,
    /// The last look at the clock.
    seen: Look,
    /// What it told last.
    pub told: u64,
    /// What the last poll told: from there on a wait is counted.
    pub polled: u64,
}

impl Time {
    /// It begins now.
    pub fn begin<R: Clock>(rt: &R) -> io::Result<Time>
        ensures { IfOk result (λ time. (time.told ≡ 0) × (time.polled ≡ 0)) }
    {
        let start = Look::now(rt)?;
        Ok(Time {
            start,
            seen: start,
            told: 0,
            polled: 0,
        })
    }

    /// How late it is: as the clock says, or as was told before where that is later.
    /// Source: `base_events.py`, `BaseEventLoop.time`.
    pub fn now<R: Clock>(&mut self, rt: &R) -> io::Result<u64>
        ensures told { IfOk result (λ now. self.new.told ≡ now) }
        ensures clock { IfOk result (λ now. now
            ≡ told_after self.old.told self.old.start self.new.seen) }
        ensures start { self.new.start ≡ self.old.start }
        ensures onward { self.old.told ≤ self.new.told }
        ensures polled { self.new.polled ≡ self.old.polled }
    {
        let seen = Look::now(rt)?;
        self.seen = seen;
        self.told = self.told.max(seen.millis_after(self.start));
        Ok(self.told)
    }

    /// A poll tells this time: the next wait is counted from it.
    pub fn poll_at(&mut self, now: u64)
        ensures told { self.new.told ≡ self.old.told }
        ensures polled { self.new.polled ≡ now }
    {
        self.polled = now;
    }

    /// What is left, at this time, of a wait of so many milliseconds that began at the last poll. One without a bound stays
    /// so.
    /// Source: `base_events.py`, `_run_once`: `timeout = self._scheduled[0]._when - self.time()`.
    pub fn left_of(&self, wait: Option<u64>, now: u64) -> Option<u64>
        ensures { result ≡ left_of self.now.polled wait now }
    {
        match wait {
            Some(wait) => Some(self.polled.saturating_add(wait).saturating_sub(now)),
            None => None,
        }
    }
}
