//! Rests of a socket.

/// For how long a socket rests after the system failed at it, in milliseconds.
/// Source: `constants.py`, ACCEPT_RETRY_DELAY.
const PAUSE: u64 = 1_000;

/// Until when a socket rests, and how many descriptors had been closed when it began to; none where it doesn't rest.
#[derive(Clone, Copy)]
pub struct Rest {
    until: Option<(u64, u64)>,
}

impl Rest {
    pub const fn none() -> Rest {
        Rest { until: None }
    }

    /// It rests from now on, until a second went by or a descriptor is closed.
    pub fn begin(&mut self, now: u64, closed: u64) {
        self.until = Some((now.saturating_add(PAUSE), closed));
    }

    /// For how many milliseconds more it rests.
    pub fn left(&mut self, now: u64, closed: u64) -> Option<u64> {
        let (until, before) = self.until?;
        if before == closed && now < until {
            return Some(until - now);
        }
        self.until = None;
        None
    }
}
