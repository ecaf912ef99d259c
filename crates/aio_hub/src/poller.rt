//! What polls sockets.
ghost use Rattle.std.specs.Prelude.{◌≡◌, ◌≤◌, true, IfOk};
ghost use Rattle.model_hub.specs.Told.{PollerSeen, is_datagram, is_socket};
ghost use Rattle.aio_hub.specs.Polls.{Polls, Nets};

use aio_base::Memory;
use aio_wire::{Call, ItemList, Reply, WatchList};
use std::alloc::Global;

/// What a poll came to.
#[derive(Drop)]
pub enum Polled {
    /// The time in milliseconds, and what came.
    Ready { now: u64, items: ItemList },
    /// The poller failed: its count of faults rose.
    Failed,
}

/// Whether an added request of this code is one on an endpoint of datagrams: 400 opens one, 401
/// sends, 402 is what comes, 403 closes.
pub fn is_datagram(code: i64) -> bool
    ensures { result ≡ is_datagram code }
{
    400 <= code && code <= 403
}

/// What polls listeners, connections, endpoints of datagrams and added requests, and makes the calls
/// on sockets.
/// Source: `selectors.py`, `BaseSelector`; the library reference, `socket`.
pub trait Poller {
    /// The calls that it was asked and the answers that it gave, where it tells them, and how often it
    /// failed.
    ghost seen: { Self → PollerSeen };

    /// Waits for what is watched, for at most so many milliseconds or without a bound. Want of memory
    /// is no failure.
    fn poll(
        &mut self,
        alloc: Global,
        wait: Option<u64>,
        watch: &WatchList,
    ) -> Result<Polled, Memory>
        ensures polled { IfOk result (Polls wait watch.now (seen self.old) (seen self.new)) }
        ensures monotone { (seen self.old).faults ≤ (seen self.new).faults };

    /// Makes a call on a socket: on a listener or a connection, or, by an added request with a code from
    /// 400 to 403, on an endpoint of datagrams. It never waits.
    fn net(&mut self, alloc: Global, call: &Call) -> Result<Reply, Memory>
        requires { is_socket call.now ≡ true }
        ensures net { IfOk result (Nets call.now (seen self.old) (seen self.new)) }
        ensures monotone { (seen self.old).faults ≤ (seen self.new).faults };
}
