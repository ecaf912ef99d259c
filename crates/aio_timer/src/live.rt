//! The timers that live: each in a slot, with a place by deadline and one by number.
ghost use Rattle.std.specs.Prelude.{◌≡◌, ◌+◌, ◌<◌, ◌≤◌, [], ◌∷◌, IfOk, OnOk, OnErr, IfSome, IfNone, vec_capacity, vec_len};
ghost use Rattle.std.specs.BinaryHeap.{heap_capacity, heap_len};
ghost use Rattle.std.specs.List.{All};
ghost use Rattle.slab.specs.Slab.{ContainsKey, HasRoomFor, get};
ghost use Rattle.model_loop.specs.Parts as plain;
ghost use Rattle.aio_timer.specs.Schedule.{timer, placed_after, lives, without, first_when, due_at, later_than};
ghost use Rattle.aio_timer.specs.Kept.{IsFirst, IsKept, IsSame, timers_of};

use crate::number::{slot_of, thin};
use crate::place::{Place, enter, is_at, settle};
use aio_base::{Action, Memory};
use aio_ready::Ticket;
use slab::Slab;
use std::alloc::Global;
use std::cmp::Reverse;
use std::collections::BinaryHeap;

/// What `Timers::at` answers: the timer's number, which is given once, and its deadline.
#[derive(Clone, Copy)]
pub struct TimerId {
    pub number: u64,
    pub when: u64,
}

/// What a timer runs, and the memory of its handle.
#[derive(Drop)]
pub struct TimerHandle {
    pub action: Action,
    pub ticket: Ticket,
}

/// Each timer that lives stands in a slot of its own. The heap has its place by deadline, and the
/// list, in order of scheduling, its slot by number. Both may have some of timers that are over.
#[derive(Drop)]
pub struct Live {
    pub entries: Slab<(TimerId, TimerHandle)>,
    pub places: BinaryHeap<Reverse<Place>>,
    pub numbers: Vec<(u64, usize)>,
    pub next: u64,
}

fn let_go(_entry: (TimerId, TimerHandle)) {}

impl Live {
    /// No timers; takes no memory.
    pub fn new(alloc: Global) -> Live
        ensures kept { IsKept result }
        ensures none { timers_of result ≡ [] }
        ensures next { result.next ≡ 0 }
    {
        let entries = Slab::new(alloc);
        let places = BinaryHeap::new(alloc);
        let numbers = Vec::new(alloc);
        Live {
            entries,
            places,
            numbers,
            next: 0,
        }
    }

    /// A timer of the next number.
    pub fn put(&mut self, when: u64, handle: TimerHandle) -> Result<TimerId, TimerHandle>
        requires { IsKept self.old }
        ensures kept { IsKept self.new }
        ensures id { IfOk result (λ id. id ≡ record { number = self.old.next; when = when }) }
        ensures after { IfOk result (λ id. timers_of self.new
            ≡ placed_after (timer id handle.action) (timers_of self.old)) }
        ensures next { OnOk result (self.new.next ≡ self.old.next + 1) }
        ensures err { OnErr result (timers_of self.new ≡ timers_of self.old) }
        ensures err_next { OnErr result (self.new.next ≡ self.old.next) }
    {
        let number = self.next;
        let Some(next) = number.checked_add(1) else {
            return Err(handle);
        };
        let Ok(()) = self.reserve() else {
            return Err(handle);
        };
        let id = TimerId { number, when };
        let slot = self.entries.insert_reserved((id, handle));
        self.numbers.push_reserved((number, slot));
        let place = Place { when, number, slot };
        enter(&mut self.places, place, &self.entries);
        self.next = next;
        Ok(id)
    }

    // Room for one more timer.
    fn reserve(&mut self) -> Result<(), Memory>
        ensures same { IsSame self.old self.new }
        ensures entries { OnOk result (HasRoomFor self.new.entries 1) }
        ensures numbers { OnOk result (vec_len self.new.numbers < vec_capacity self.new.numbers) }
        ensures places { OnOk result (heap_len self.new.places < heap_capacity self.new.places) }
    {
        self.entries.reserve(1)?;
        self.numbers.reserve(1)?;
        self.places.reserve(1)?;
        Ok(())
    }

    // The timer of a slot leaves.
    fn lift(&mut self, slot: usize) -> (TimerId, TimerHandle)
        requires kept { IsKept self.old }
        requires there { ContainsKey self.old.entries slot }
        ensures kept { IsKept self.new }
        ensures was { get self.old.entries slot ≡ Some result }
        ensures after { timers_of self.new ≡ without result.0 (timers_of self.old) }
        ensures next { self.new.next ≡ self.old.next }
    {
        let entry = self.entries.remove(slot);
        settle(&mut self.places, &self.entries);
        thin(&mut self.numbers, &self.entries);
        entry
    }

    /// A timer is let go. The answer says whether it was there.
    pub fn take(&mut self, id: TimerId) -> bool
        requires { IsKept self.old }
        ensures kept { IsKept self.new }
        ensures answer { result ≡ lives id (timers_of self.old) }
        ensures after { timers_of self.new ≡ without id (timers_of self.old) }
        ensures next { self.new.next ≡ self.old.next }
    {
        let Some(slot) = slot_of(&self.numbers, id.number) else {
            return false;
        };
        if !is_at(&self.entries, id, slot) {
            return false;
        }
        let_go(self.lift(slot));
        true
    }

    // The place of the first timer.
    fn first(&self) -> Option<Place>
        requires { IsKept self.now }
        ensures first { IfSome result (IsFirst self.now) }
        ensures none { IfNone result (timers_of self.now ≡ []) }
    {
        match self.places.peek() {
            Some(place) => Some(place.0),
            None => None,
        }
    }

    /// The earliest deadline.
    pub fn first_when(&self) -> Option<u64>
        requires { IsKept self.now }
        ensures first { result ≡ first_when (timers_of self.now) }
        ensures least { IfSome result (λ when.
            All (λ (timer : plain.Timer). when ≤ timer.when) (timers_of self.now)) }
    {
        match self.first() {
            Some(place) => Some(place.when),
            None => None,
        }
    }

    /// The first timer whose time has come.
    pub fn pop_due(&mut self, now: u64) -> Option<(TimerId, TimerHandle)>
        requires { IsKept self.old }
        ensures kept { IsKept self.new }
        ensures first { IfSome result (λ due.
            timers_of self.old ≡ timer due.0 due.1.action ∷ timers_of self.new) }
        ensures come { IfSome result (λ due. due.0.when ≤ now) }
        ensures none { IfNone result ((due_at now (timers_of self.old) ≡ [])
            × (later_than now (timers_of self.old) ≡ timers_of self.old)
            × (timers_of self.new ≡ timers_of self.old)) }
        ensures next { self.new.next ≡ self.old.next }
    {
        match self.first() {
            Some(place) => {
                if place.when <= now {
                    Some(self.lift(place.slot))
                } else {
                    None
                }
            }
            None => None,
        }
    }
}
