//! What a made up outside has: the network, the children, and what decides; when a wait is over.
ghost use Rattle.std.specs.Prelude.{◌≤◌, IfSome};

use crate::child::has_come;
use crate::children::Children;
use crate::items::soonest;
use aio_base::Memory;
use aio_simnet::{Chance, Net, Odds, Rates, later};
use aio_wire::{Answer, Call, Watch};
use std::alloc::Global;

/// Time passes once in so many turns that don't wait.
const TURNS_AT_ONCE: u32 = 16;

/// The network, the children, what decides, and how many turns in a row didn't wait.
#[derive(Drop)]
pub(crate) struct Outside {
    pub odds: Odds,
    pub net: Net,
    pub children: Children,
    pub busy: u32,
}

impl Outside {
    /// Nothing was opened or launched.
    pub fn new(alloc: Global, chance: Chance, rates: Rates) -> Outside {
        Outside {
            odds: Odds::new(chance, rates),
            net: Net::new(alloc, rates.room),
            children: Children::new(alloc, rates.room),
            busy: 0,
        }
    }

    /// The answer to a call that is no select.
    pub fn answer(&mut self, alloc: Global, now: u64, call: &Call) -> Result<Answer, Memory> {
        let odds = &mut self.odds;
        match call {
            Call::Listen(port) => self.net.listen(odds, *port),
            Call::Accept(server) => self.net.accept(odds, now, *server),
            Call::Connect(port) => self.net.connect(odds, now, *port),
            Call::Recv(conn) => self.net.receive(alloc, odds, now, *conn),
            Call::Send { conn, bytes } => self.net.send(odds, now, *conn, bytes.items()),
            Call::Shut(conn) => Ok(self.net.shut(odds, now, *conn)),
            Call::Close(conn) => Ok(self.net.close(odds, now, *conn)),
            Call::CloseServer(server) => Ok(self.net.close_server(odds, now, *server)),
            Call::Launch(words) => self.children.launch(odds, now, words),
            Call::Feed { child, bytes } => self.children.feed(odds, now, *child, bytes.items()),
            Call::End(child) => self.children.end(odds, now, *child),
            Call::Kill(child) => Ok(self.children.kill(odds, now, *child)),
            Call::Select { .. } | Call::Extra { .. } => Ok(Answer::Refused),
        }
    }

    /// The time at which a select is over that is asked at a time; `None` where it waits for what never comes.
    pub fn wake(&mut self, begin: u64, wait: Option<u64>, watch: &[Watch]) -> Option<u64>
        ensures { IfSome result (λ at. begin ≤ at) }
    {
        let limit = match wait {
            Some(time) => Some(begin.saturating_add(time)),
            None => None,
        };
        if wait != Some(0) {
            self.odds.deadline = limit;
        }
        let now = self.pass(begin);
        if wait == Some(0) || self.is_ready(watch, now) {
            return Some(now);
        }
        if self.odds.chance.happens(self.odds.rates.spurious) {
            return Some(now);
        }
        let at = self.next_time(watch, limit, now)?.max(now);
        self.busy = 0;
        Some(self.late(at))
    }

    /// A turn may take time, and each sixteenth in a row that doesn't wait does.
    fn pass(&mut self, now: u64) -> u64
        ensures { now ≤ result }
    {
        self.busy = self.busy.saturating_add(1);
        if self.odds.chance.happens(self.odds.rates.tick) {
            return later(now, self.odds.chance.below(5) + 1);
        }
        if self.busy % TURNS_AT_ONCE == 0 {
            later(now, 1)
        } else {
            now
        }
    }

    /// A wait may be over late: a little, or so much that other things may have come.
    fn late(&mut self, at: u64) -> u64
        ensures { at ≤ result }
    {
        if !self.odds.chance.happens(self.odds.rates.late) {
            return at;
        }
        let most = if self.odds.chance.below(2) == 0 {
            3
        } else {
            60
        };
        later(at, self.odds.chance.below(most) + 1)
    }

    /// Whether something that is watched is ready.
    fn is_ready(&self, watch: &[Watch], now: u64) -> bool {
        watch
            .iter()
            .any(|entry| has_come(self.ready_at(entry, now), now))
    }

    /// The first time at which something that is watched is ready, or the wait is over.
    fn next_time(&self, watch: &[Watch], limit: Option<u64>, now: u64) -> Option<u64> {
        let mut first = limit;
        for entry in watch {
            first = soonest(first, self.ready_at(entry, now));
        }
        first
    }
}
