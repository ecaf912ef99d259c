//! What the system's clock says.
ghost use Rattle.std.specs.Prelude.{◌≡◌};
ghost use Rattle.aio_poller.specs.Looks.{millis_between};

use std::io;
use std::time::{Clock, Instant};

/// What the clock said once. Only a look at it makes one.
#[derive(Clone, Copy)]
pub struct Look {
    at: Instant,
}

impl Look {
    /// Looks at the clock.
    pub fn now<R: Clock>(rt: &R) -> io::Result<Look> {
        let at = Instant::now(rt)?;
        Ok(Look { at })
    }

    /// How many whole milliseconds this look comes after that one: 2^63 - 1 at most, and none where it comes before.
    pub fn millis_after(self, start: Look) -> u64
        ensures { result ≡ millis_between start self }
    {
        let since = self.at.duration_since(start.at);
        since.as_millis().min(i64::MAX as u128) as u64
    }
}
