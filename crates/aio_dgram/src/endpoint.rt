//! One endpoint that is open.
ghost use Rattle.std.specs.Prelude.{◌≡◌, ◌<◌, ◌++◌, ◌∷◌, [], List, None, true, not, is_some, OnOk, MatchOption, length, nat_lt, if◌then◌else◌};
ghost use Rattle.std.specs.List.{AllByRecursion as Each, flat_map};
ghost use Rattle.model_sync.specs.Synced.{without};
ghost use Rattle.model_dgram.specs.Endpoints.{fresh, most_held, wakes_at, wakes_first, wakes_receiver};
ghost use Rattle.model_dgram.specs.Sending.{stand_last, stands_first};
ghost use Rattle.model_dgram.specs.Receiving.{hold};
ghost use Rattle.model_dgram.specs.Texts as texts;
ghost use Rattle.aio_sync.specs.Woken.{are_free, is_free, woken};
ghost use Rattle.aio_dgram.specs.Keeps.{own_in, waits};
ghost use Rattle.aio_dgram.specs.Told.{came_as};
ghost use Rattle.aio_dgram.specs.Woken.{Sees};

use crate::datagram::{Came, Datagram};
use crate::waiting::Waiting;
use aio_base::{Memory, Outcome, Value};
use aio_task::{FutureId, Parts};
use std::alloc::Global;
use std::collections::{BTreeMap, BTreeSet, VecDeque};
use std::marker::Model;

// It holds no more datagrams than these.
const MOST: usize = 1_024;

/// The datagrams that came and weren't received; who sends, in order of asking; and who receives.
/// Contracts see it as the definitions have it.
#[derive(Drop)]
pub struct Endpoint {
    held: VecDeque<Datagram>,
    senders: BTreeSet<u64>,
    receiver: Option<u64>,
}

impl Model for Endpoint {
    ghost use Rattle.std.specs.List.Sorted.{IsStrictlySortedBy};
    ghost use Rattle.std.specs.Ordering.{nat_cmp};
    ghost use Rattle.model_dgram.specs.Endpoints.{Endpoint as PlainEndpoint};
    ghost use Rattle.aio_dgram.specs.Code.{coded_endpoint};

    ghost Value = { PlainEndpoint };

    ghost coded = { coded_endpoint };

    ghost view = { λ a. record {
      held = a.held.items;
      senders = a.senders.keys;
      receiver = a.receiver;
    } };

    ghost invariant = { λ a. IsStrictlySortedBy nat_cmp a.senders.keys };
}

// Its future is resolved, unless it is done. It takes no memory.
fn wake(waiter: FutureId, parts: &mut Parts)
    requires idle { parts.old.called ≡ None }
    requires free { is_free parts.old.futures waiter ≡ true }
    ensures { parts.new ≡ woken waiter parts.old }
{
    let _was_pending = parts.resolve(waiter, Outcome::Value(Value::nothing()));
}

// What waits under the key at this place is woken, unless its future is done. It takes no memory.
fn wake_at(waiting: &BTreeMap<u64, Waiting>, place: u64, parts: &mut Parts)
    requires idle { parts.old.called ≡ None }
    requires free { are_free parts.old.futures (own_in waiting.now.entries) ≡ true }
    ensures steps { Sees (wakes_at (waits waiting.now.entries) place) parts.old parts.new }
    ensures idle { parts.new.called ≡ None }
    ensures free { are_free parts.new.futures (own_in waiting.now.entries) ≡ true }
{
    if let Some(it) = waiting.get(&place) {
        if let Some(on) = it.future() {
            wake(on, parts);
        }
    }
}

impl Endpoint {
    /// Nothing came, and nobody sends or receives.
    pub fn new(alloc: Global) -> Endpoint
        ensures { result ≡ fresh }
    {
        Endpoint {
            held: VecDeque::new(alloc),
            senders: BTreeSet::new(alloc),
            receiver: None,
        }
    }

    /// Whether somebody stands in line to send.
    pub fn has_line(&self) -> bool
        ensures { result ≡ nat_lt 0 (length self.now.senders) }
    {
        self.senders.len() > 0
    }

    /// One stands last in line.
    pub fn stand_last(&mut self, place: u64) -> Result<(), Memory>
        requires { Each (λ other. other < place) self.old.senders }
        ensures { OnOk result (self.new ≡ stand_last place self.old) }
    {
        self.senders.insert(place)?;
        Ok(())
    }

    /// Whether this one stands first in line.
    pub fn is_first(&self, place: u64) -> bool
        ensures { result ≡ stands_first place self.now.senders }
    {
        match self.senders.first() {
            Some(first) => *first == place,
            None => false,
        }
    }

    // One is no more in line.
    fn leave(&mut self, place: u64)
        ensures { self.new ≡ record self.old { senders = without place self.old.senders } }
    {
        let _was_there = self.senders.remove(&place);
    }

    /// One leaves the line, and where it stood first the next is woken. It takes no memory.
    pub fn leave_line(&mut self, place: u64, waiting: &BTreeMap<u64, Waiting>, parts: &mut Parts)
        requires idle { parts.old.called ≡ None }
        requires free { are_free parts.old.futures (own_in waiting.now.entries) ≡ true }
        ensures after { self.new ≡ record self.old { senders = without place self.old.senders } }
        ensures steps { Sees (if stands_first place self.old.senders
            then wakes_first (waits waiting.now.entries) (without place self.old.senders) else [])
            parts.old parts.new }
    {
        let first = self.is_first(place);
        self.leave(place);
        if first {
            self.wake_first(waiting, parts);
        }
    }

    /// Who stands first in line is woken, unless its future is done. It takes no memory.
    pub fn wake_first(&self, waiting: &BTreeMap<u64, Waiting>, parts: &mut Parts)
        requires idle { parts.old.called ≡ None }
        requires free { are_free parts.old.futures (own_in waiting.now.entries) ≡ true }
        ensures { Sees (wakes_first (waits waiting.now.entries) self.now.senders) parts.old
            parts.new }
    {
        if let Some(place) = self.senders.first() {
            wake_at(waiting, *place, parts);
        }
    }

    /// Who receives is woken, unless its future is done. It takes no memory.
    pub fn wake_receiver(&self, waiting: &BTreeMap<u64, Waiting>, parts: &mut Parts)
        requires idle { parts.old.called ≡ None }
        requires free { are_free parts.old.futures (own_in waiting.now.entries) ≡ true }
        ensures { Sees (wakes_receiver (waits waiting.now.entries) self.now.receiver) parts.old
            parts.new }
    {
        if let Some(place) = self.receiver {
            wake_at(waiting, place, parts);
        }
    }

    /// All who send are woken, in order. It takes no memory.
    pub fn wake_senders(&self, waiting: &BTreeMap<u64, Waiting>, parts: &mut Parts)
        requires idle { parts.old.called ≡ None }
        requires free { are_free parts.old.futures (own_in waiting.now.entries) ≡ true }
        ensures steps { Sees (flat_map (wakes_at (waits waiting.now.entries)) self.now.senders)
            parts.old parts.new }
        ensures idle { parts.new.called ≡ None }
        ensures free { are_free parts.new.futures (own_in waiting.now.entries) ≡ true }
    {
        for place in self.senders.iter() {
            wake_at(waiting, *place, parts);
        }
    }

    /// All who wait are woken: who sends, in order, and then who receives. It takes no memory.
    pub fn wake_all(&self, waiting: &BTreeMap<u64, Waiting>, parts: &mut Parts)
        requires idle { parts.old.called ≡ None }
        requires free { are_free parts.old.futures (own_in waiting.now.entries) ≡ true }
        ensures { Sees (flat_map (wakes_at (waits waiting.now.entries)) self.now.senders
            ++ wakes_receiver (waits waiting.now.entries) self.now.receiver) parts.old parts.new }
    {
        self.wake_senders(waiting, parts);
        self.wake_receiver(waiting, parts);
    }

    /// Whether somebody receives.
    pub fn is_waited_for(&self) -> bool
        ensures { result ≡ is_some self.now.receiver }
    {
        self.receiver.is_some()
    }

    /// Who receives from now on, if anybody does.
    pub fn set_receiver(&mut self, receiver: Option<u64>)
        ensures { self.new ≡ record self.old { receiver = receiver } }
    {
        self.receiver = receiver;
    }

    /// The first datagram that is held, which is held no longer.
    pub fn take(&mut self) -> Option<Datagram>
        ensures { MatchOption result ((self.old.held ≡ []) × (self.new ≡ self.old))
            (λ first. (others : List texts.Datagram) × (self.old.held ≡ first ∷ others)
            × (self.new ≡ record self.old { held = others })) }
    {
        self.held.pop_front()
    }

    // Whether it holds as many as it may.
    fn is_full(&self) -> bool
        ensures { result ≡ not (nat_lt (length self.now.held) most_held) }
    {
        self.held.len() >= MOST
    }

    // One more comes last.
    fn hold(&mut self, it: Datagram) -> Result<(), Memory>
        ensures { OnOk result (self.new ≡ record self.old { held = self.old.held ++ it ∷ [] }) }
    {
        self.held.push_back(it)?;
        Ok(())
    }

    /// One more comes last, where it may hold one more.
    pub fn hold_if_room(&mut self, alloc: Global, came: Came<'_>) -> Result<(), Memory>
        ensures { OnOk result (self.new ≡ record self.old {
          held = hold (came_as came.entry).datagram self.old.held;
        }) }
    {
        if self.is_full() {
            return Ok(());
        }
        self.hold(Datagram::of(alloc, came)?)
    }
}
