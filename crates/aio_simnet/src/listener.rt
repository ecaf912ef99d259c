//! Listeners.
use std::collections::VecDeque;

/// A connection that waits to be accepted: from when on, and the place of its end.
#[derive(Clone, Copy)]
pub(crate) struct Waiting {
    pub at: u64,
    pub place: usize,
}

/// A listener, with the connections that wait for it in the order in which they were asked for.
#[derive(Drop)]
pub(crate) struct Listener {
    pub port: u16,
    pub is_open: bool,
    pub waiting: VecDeque<Waiting>,
}

impl Listener {
    /// When the next connection may be accepted.
    pub fn ready_at(&self) -> Option<u64> {
        if !self.is_open {
            return None;
        }
        match self.waiting.front() {
            Some(first) => Some(first.at),
            None => None,
        }
    }

    /// The place of the next connection's end, which then waits no longer, where it has come.
    pub fn accept(&mut self, now: u64) -> Option<usize> {
        match self.waiting.front() {
            Some(first) if first.at <= now => {
                let place = first.place;
                let _ = self.waiting.pop_front();
                Some(place)
            }
            _ => None,
        }
    }
}
