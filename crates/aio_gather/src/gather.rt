//! What keys were drawn for.
ghost use Rattle.std.specs.Prelude.{◌≡◌, ◌+◌, ◌<◌, ◌++◌, ◌∷◌, [], ℕ, IfOk, OnOk, Some, is_some, length, map, slice_get, slice_set, if◌then◌else◌};
ghost use Rattle.model_machine.specs.Extra.{ExtraAnswer};
ghost use Rattle.model_reach.specs.Part.{can_draw, key_at, no_key, place_of};
ghost use Rattle.model_gather.specs.Gathered.{at_once, gather_part, none_gathered};
ghost use Rattle.aio_gather.specs.Kept.{counted_down, in_state, kept_of};
ghost use Rattle.aio_gather.specs.Seen.{Says, SaysSeen};
ghost use Rattle.aio_gather.specs.declared.drawn.Drawn.TheVariants as drawn;

use crate::counting::out_of_range;
use crate::drawn::{Drawn, TimedState};
use crate::handles::key_of;
use aio_base::Memory;
use aio_extra::Asked;
use aio_task::{FutureId, Parts};
use aio_timer::TimerId;
use std::alloc::Global;

// The first number that is no key.
const NO_KEY: u64 = 17_179_869_184;

/// What serves requests that wait for several futures.
#[derive(Drop)]
pub struct Gather {
    // what keys were drawn for, in order
    pub(crate) drawn: Vec<Drawn>,
}

impl Gather {
    /// Nothing was asked. Keys are 0, 4, 8 and so on.
    pub fn new(alloc: Global) -> Gather
        ensures { (tags : ℕ → ℕ) → kept_of tags result ≡ none_gathered }
    {
        Gather {
            drawn: Vec::new(alloc),
        }
    }

    /// Whether a key can be drawn for a request, so many for handles, and one for a timer's where
    /// it has one.
    pub(crate) fn can_draw(&self, handles: u64, timed: bool) -> bool
        ensures { result ≡ can_draw gather_part (length self.now.drawn.items)
            (1 + handles + (if timed then 1 else 0)) }
    {
        let Some(last) = (self.drawn.len() as u64).checked_add(handles) else {
            return false;
        };
        let Some(last) = last.checked_add(if timed { 1 } else { 0 }) else {
            return false;
        };
        match last.checked_mul(4) {
            Some(key) => key < NO_KEY,
            None => false,
        }
    }

    /// The place of the next key.
    pub(crate) fn next_place(&self) -> u64
        ensures { result ≡ length self.now.drawn.items }
    {
        self.drawn.len() as u64
    }

    /// The key of the next place.
    pub(crate) fn next_key(&self) -> u64
        requires { key_at gather_part (length self.now.drawn.items) < no_key }
        ensures { result ≡ key_at gather_part (length self.now.drawn.items) }
    {
        key_of(self.next_place())
    }

    /// A request that is answered as it is asked.
    pub(crate) fn at_once(
        &mut self,
        alloc: Global,
        answer: Asked,
        parts: &Parts,
    ) -> Result<Asked, Memory>
        ensures { IfOk result (λ asked. (tags : ℕ → ℕ) (said : ExtraAnswer) → Says answer said
            → SaysSeen tags self.old self.new parts.now parts.now asked
            (at_once said (kept_of tags self.old))) }
    {
        if !self.can_draw(0, false) {
            forget_asked(answer);
            return Ok(Asked::Raise(out_of_range(alloc)?));
        }
        match self.drawn.push(Drawn::Answered) {
            Ok(()) => Ok(answer),
            Err(refused) => {
                forget_asked(answer);
                Err(refused)?
            }
        }
    }

    /// Keys are drawn for handles on these futures, of the request at this place.
    pub(crate) fn tell_all(&mut self, place: u64, ids: &[FutureId]) -> Result<(), Memory>
        ensures { OnOk result (self.new.drawn.items ≡ self.old.drawn.items
            ++ map (λ id. drawn.Tells place id) ids.now) }
    {
        for id in ids {
            self.drawn.push(Drawn::Tells { place, future: *id })?;
        }
        Ok(())
    }

    /// A key is drawn for a timer's handle, if there is one, of the request at this place.
    pub(crate) fn ring_one(&mut self, place: u64, rings: bool) -> Result<(), Memory>
        ensures { OnOk result (self.new.drawn.items ≡ self.old.drawn.items
            ++ (if rings then drawn.Rings place ∷ [] else [])) }
    {
        if rings {
            self.drawn.push(Drawn::Rings { place })?;
        }
        Ok(())
    }

    /// One member of the request at this place isn't counted any more.
    pub(crate) fn count_down(&mut self, place: u64)
        ensures { (entry : drawn.the_data) → slice_get self.old.drawn.items place ≡ Some entry
            → self.new.drawn.items ≡ slice_set self.old.drawn.items place (counted_down entry) }
    {
        if let Some(entry) = self.drawn.get_mut(place as usize) {
            count_down(entry);
        }
    }

    /// The `wait_for` at this place is so far then, and has this timer.
    pub(crate) fn set_state(&mut self, place: u64, state: TimedState, timer: Option<TimerId>)
        ensures { (entry : drawn.the_data) → slice_get self.old.drawn.items place ≡ Some entry
            → self.new.drawn.items ≡ slice_set self.old.drawn.items place
            (in_state state timer entry) }
    {
        if let Some(entry) = self.drawn.get_mut(place as usize) {
            set_state(entry, state, timer);
        }
    }
}

/// The place of a key among those that were drawn.
pub fn place_of(key: u64) -> u64
    ensures { result ≡ place_of gather_part key }
{
    key / 4
}

// One member isn't counted any more.
fn count_down(entry: &mut Drawn)
    ensures { entry.new ≡ counted_down entry.old }
{
    match entry {
        Drawn::Gathers(it) => it.left = it.left.saturating_sub(2),
        Drawn::Waits(it) => it.left = it.left.saturating_sub(1),
        _ => {}
    }
}

fn set_state(entry: &mut Drawn, state: TimedState, timer: Option<TimerId>)
    ensures { entry.new ≡ in_state state timer entry.old }
{
    if let Drawn::WaitsFor(it) = entry {
        it.state = state;
        it.timer = timer;
    }
}

fn forget_asked(_asked: Asked) {}
