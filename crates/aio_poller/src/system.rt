//! The poller over the system's sockets.
ghost use Rattle.std.specs.Prelude.{◌≡◌, ◌≤◌, IfOk, OnOk};
ghost use Rattle.model_wire.specs.Told.{Rose};
ghost use Rattle.aio_hub.specs.Polls.{Polls, Nets};
ghost use Rattle.aio_poller.specs.Seen.{untold, IsAt};

use crate::bell::PollerBell;
use crate::sockets::Sockets;
use crate::time::Time;
use aio_base::Memory;
use aio_hub::{Polled, Poller};
use aio_wire::{Answer, Call, Item, ItemList, Reply, Watch, WatchList, fits, turn_fits};
use std::alloc::Global;
use std::io;
use std::io::ErrorKind;
use std::net::Net;
use std::time::Clock;

/// The sockets of the system, on 127.0.0.1. It tells nothing of what they carry. What the system answers that doesn't
/// fit is a failure. The time of its polls never falls.
/// Source: `selectors.py`, EpollSelector; `selector_events.py`.
#[derive(Drop)]
pub struct RealPoller<R> {
    rt: R,
    time: Time,
    sockets: Sockets,
    faults: u64,
}

impl<R: Net + Clock + Drop> RealPoller<R> {
    /// A poller with no socket. Its time begins now.
    pub fn make(rt: R, alloc: Global) -> io::Result<RealPoller<R>> {
        let sockets = Sockets::make(&rt, alloc)?;
        let time = Time::begin(&rt)?;
        Ok(RealPoller {
            rt,
            time,
            sockets,
            faults: 0,
        })
    }
}

impl<R> RealPoller<R> {
    /// What wakes this poller from another thread.
    pub fn bell(&self) -> Result<PollerBell, Memory> {
        self.sockets.bell()
    }

    /// Counts a failure, unless it is want of memory.
    fn failed(&mut self, error: &io::Error) -> Result<(), Memory>
        ensures rose { OnOk result (Rose self.old.faults self.new.faults) }
        ensures monotone { self.old.faults ≤ self.new.faults }
        ensures time { self.new.time ≡ self.old.time }
    {
        if error.kind() == ErrorKind::OutOfMemory && error.raw_os_error().is_none() {
            return Err(Memory);
        }
        self.count();
        Ok(())
    }

    fn count(&mut self)
        ensures rose { Rose self.old.faults self.new.faults }
        ensures monotone { self.old.faults ≤ self.new.faults }
        ensures time { self.new.time ≡ self.old.time }
    {
        self.faults = self.faults.saturating_add(1);
    }
}

impl<R: Net + Clock> RealPoller<R> {
    /// Waits for what is watched, for what is left of this wait; when it was done, and what was found.
    fn find(
        &mut self,
        alloc: Global,
        wait: Option<u64>,
        watch: &[Watch],
    ) -> io::Result<(u64, Vec<Item>)>
        ensures told { IfOk result (λ found. self.new.time.told ≡ found.0) }
        ensures onward { self.old.time.told ≤ self.new.time.told }
        ensures faults { self.new.faults ≡ self.old.faults }
    {
        let begun = self.time.now(&self.rt)?;
        let left = self.time.left_of(wait, begun);
        self.sockets.wait_for(begun, left, watch)?;
        let now = self.time.now(&self.rt)?;
        self.time.poll_at(now);
        let items = self.sockets.items_of(alloc, now, watch)?;
        Ok((now, items))
    }

    /// What a call on a socket comes to.
    fn answer(&mut self, alloc: Global, call: &Call) -> io::Result<Answer>
        ensures onward { self.old.time.told ≤ self.new.time.told }
        ensures faults { self.new.faults ≡ self.old.faults }
    {
        let now = self.time.now(&self.rt)?;
        self.sockets.answer(&self.rt, alloc, call, now)
    }
}

impl<R: Net + Clock> Poller for RealPoller<R> {
    ghost seen = { λ poller. untold poller.faults };

    fn poll(
        &mut self,
        alloc: Global,
        wait: Option<u64>,
        watch: &WatchList,
    ) -> Result<Polled, Memory>
        ensures polled { IfOk result (Polls wait watch.now (untold self.old.faults)
            (untold self.new.faults)) }
        ensures monotone { self.old.faults ≤ self.new.faults }
        ensures told { IfOk result (IsAt self.new.time.told) }
        ensures onward { self.old.time.told ≤ self.new.time.told }
    {
        let found = self.find(alloc, wait, watch.items());
        match found {
            Ok((now, items)) => {
                if turn_fits(alloc, watch.items(), now, &items)? {
                    return Ok(Polled::Ready {
                        now,
                        items: ItemList::of(items),
                    });
                }
                self.count();
                Ok(Polled::Failed)
            }
            Err(error) => {
                self.failed(&error)?;
                Ok(Polled::Failed)
            }
        }
    }

    fn net(&mut self, alloc: Global, call: &Call) -> Result<Reply, Memory>
        ensures net { IfOk result
            (Nets call.now (untold self.old.faults) (untold self.new.faults)) }
        ensures monotone { self.old.faults ≤ self.new.faults }
        ensures onward { self.old.time.told ≤ self.new.time.told }
    {
        match self.answer(alloc, call) {
            Ok(answer) => {
                if fits(alloc, call, &answer)? {
                    return Ok(Reply::Got(answer));
                }
                self.count();
                Ok(Reply::Failed)
            }
            Err(error) => {
                self.failed(&error)?;
                Ok(Reply::Failed)
            }
        }
    }
}
