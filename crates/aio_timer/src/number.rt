//! The timers' slots in order of number, of which some may be of timers that are over.
ghost use Rattle.std.specs.Prelude.{◌≡◌, IfSome, IfNone};
ghost use Rattle.std.specs.List.{Contains};
ghost use Rattle.aio_timer.specs.Kept.{AreRising, IsThinned, NoneAt, is_numbered};
ghost use Rattle.slab.specs.Slab.{get};

use crate::live::{TimerHandle, TimerId};
use crate::place::is_crowded;
use slab::Slab;

/// The slot of a number.
pub fn slot_of(numbers: &[(u64, usize)], number: u64) -> Option<usize>
    ensures found { IfSome result (λ slot. Contains numbers.now (number, slot)) }
    ensures none { IfNone result (AreRising 0 numbers.now → NoneAt number numbers.now) }
{
    match numbers.binary_search_by_key(&number, |pair| pair.0) {
        Ok(at) => Some(numbers[at].1),
        Err(_) => None,
    }
}

fn has_number(entries: &Slab<(TimerId, TimerHandle)>, number: u64, slot: usize) -> bool
    ensures { result ≡ is_numbered number (get entries.now slot) }
{
    match entries.get(slot) {
        Some(entry) => entry.0.number == number,
        None => false,
    }
}

/// The slots of timers that are over leave, once they are more than the others.
pub fn thin(numbers: &mut Vec<(u64, usize)>, entries: &Slab<(TimerId, TimerHandle)>)
    ensures { IsThinned entries.now numbers.old.items numbers.new.items }
{
    if !is_crowded(numbers.len(), entries.len()) {
        return;
    }
    numbers.retain(|pair| has_number(entries, pair.0, pair.1));
}
