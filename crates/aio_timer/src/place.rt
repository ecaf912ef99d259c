//! A heap of the timers' places, of which some may be of timers that are over.
ghost use Rattle.std.specs.Prelude.{◌≡◌, ◌+◌, ◌<◌, ◌∷◌, slice_index_or, true};
ghost use Rattle.std.specs.BinaryHeap.{IsHeap, KeepsHeap, heap_capacity, heap_items, heap_len};
ghost use Rattle.std.specs.List.Sorted.{IsPermutation};
ghost use Rattle.aio_timer.specs.Kept.{IsSettled, KeepsStanding, begins_dead, has, later_cmp, stands};
ghost use Rattle.slab.specs.Slab.{get};

use crate::live::{TimerHandle, TimerId};
use slab::Slab;
use std::cmp::Reverse;
use std::collections::BinaryHeap;

/// Where a timer stands: by deadline, equal ones by number. The slot says where it is.
#[derive(Clone, Copy, PartialEq, Eq, PartialOrd, Ord)]
pub struct Place {
    pub when: u64,
    pub number: u64,
    pub slot: usize,
}

/// Whether the slot has this timer.
pub fn is_at(entries: &Slab<(TimerId, TimerHandle)>, id: TimerId, slot: usize) -> bool
    ensures { result ≡ has id (get entries.now slot) }
{
    match entries.get(slot) {
        Some(entry) => entry.0.number == id.number && entry.0.when == id.when,
        None => false,
    }
}

fn is_standing(entries: &Slab<(TimerId, TimerHandle)>, place: &Reverse<Place>) -> bool
    ensures { result ≡ stands entries.now place.now }
{
    let Place { when, number, slot } = place.0;
    is_at(entries, TimerId { number, when }, slot)
}

fn is_dead_first(
    places: &BinaryHeap<Reverse<Place>>,
    entries: &Slab<(TimerId, TimerHandle)>,
) -> bool
    ensures dead { result ≡ begins_dead entries.now (heap_items places.now) }
    ensures some { result ≡ true → 0 < heap_len places.now }
{
    match places.peek() {
        Some(place) => !is_standing(entries, place),
        None => false,
    }
}

// Dead places leave until a live one comes first.
fn shed(places: &mut BinaryHeap<Reverse<Place>>, entries: &Slab<(TimerId, TimerHandle)>)
    requires { IsHeap later_cmp (heap_items places.old) }
    ensures { IsSettled entries.now (heap_items places.old) (heap_items places.new) }
{
    while is_dead_first(places, entries) {
        pop_first(places);
    }
}

fn pop_first(places: &mut BinaryHeap<Reverse<Place>>) -> Reverse<Place>
    requires { 0 < heap_len places.old }
    ensures len { heap_len places.new + 1 ≡ heap_len places.old }
    ensures first { result ≡ slice_index_or (heap_items places.old) 0 result }
    ensures moved { IsPermutation (heap_items places.old) (result ∷ heap_items places.new) }
    ensures heap { KeepsHeap later_cmp (heap_items places.old) (heap_items places.new) }
{
    match places.pop() {
        Some(place) => place,
        None => unreachable!(),
    }
}

/// Whether more than half of some places are dead.
pub fn is_crowded(places: usize, live: usize) -> bool {
    places / 2 > live
}

// The heap is built anew without its dead places, once they are more than the live ones.
fn renew(places: &mut BinaryHeap<Reverse<Place>>, entries: &Slab<(TimerId, TimerHandle)>)
    requires { IsHeap later_cmp (heap_items places.old) }
    ensures heap { IsHeap later_cmp (heap_items places.new) }
    ensures kept { KeepsStanding entries.now (heap_items places.old) (heap_items places.new) }
{
    if !is_crowded(places.len(), entries.len()) {
        return;
    }
    places.retain(|place| is_standing(entries, place));
}

/// A live place comes first, and no more than half of the places are dead.
pub fn settle(places: &mut BinaryHeap<Reverse<Place>>, entries: &Slab<(TimerId, TimerHandle)>)
    requires { IsHeap later_cmp (heap_items places.old) }
    ensures { IsSettled entries.now (heap_items places.old) (heap_items places.new) }
{
    renew(places, entries);
    shed(places, entries);
}

/// One more place, for which there is room.
pub fn enter(
    places: &mut BinaryHeap<Reverse<Place>>,
    place: Place,
    entries: &Slab<(TimerId, TimerHandle)>,
)
    requires heap { IsHeap later_cmp (heap_items places.old) }
    requires room { heap_len places.old < heap_capacity places.old }
    ensures { IsSettled entries.now (record { 0 = place } ∷ heap_items places.old)
        (heap_items places.new) }
{
    let Ok(()) = places.push(Reverse(place)) else {
        unreachable!();
    };
    shed(places, entries);
}
