//! `shield`.
ghost use Rattle.std.specs.Prelude.{◌≡◌, ◌+◌, ◌<◌, ℕ, None, IfOk, length};
ghost use Rattle.model_loop.specs.Futures.{future_outcome};
ghost use Rattle.model_machine.specs.Outcomes.{input_of};
ghost use Rattle.model_reach.specs.Part.{key_at, no_key, passes};
ghost use Rattle.model_gather.specs.Gathered.{draws, gather_part};
ghost use Rattle.model_gather.specs.Shield as plain;
ghost use Rattle.aio_task.specs.View.{parts as parts_of};
ghost use Rattle.aio_gather.specs.Kept.{kept_of};
ghost use Rattle.aio_gather.specs.Seen.{EndsAs, Says, SaysSeen};

use crate::counting::out_of_range;
use crate::drawn::Drawn;
use crate::gather::Gather;
use crate::handles::register_all;
use aio_base::{Exc, Kind, Memory, Outcome};
use aio_extra::Asked;
use aio_task::{FutureId, Parts};
use std::alloc::Global;

// What an outcome is to whoever awaits it.
fn answered(outcome: &Outcome) -> Result<Asked, Memory>
    ensures { IfOk result (λ asked. Says asked (passes (input_of outcome.now))) }
{
    match outcome {
        Outcome::Value(value) => Ok(Asked::Answer(value.clone()?)),
        Outcome::Failed(fault) => Ok(Asked::Raise(fault.clone()?)),
        Outcome::Cancelled => Ok(Asked::Raise(Exc::bare(Kind::CancelledError))),
    }
}

// What is shielded, where it is done.
fn ended(inner: FutureId, parts: &Parts) -> Result<Option<Asked>, Memory>
    ensures { IfOk result (λ said. EndsAs said (future_outcome (parts_of parts.now) inner)) }
{
    match parts.outcome(inner) {
        Some(outcome) => Ok(Some(answered(outcome)?)),
        None => Ok(None),
    }
}

impl Gather {
    // The task waits on a future of its own, which is all that a cancel of it comes to.
    fn shield_open(
        &mut self,
        alloc: Global,
        inner: FutureId,
        parts: &mut Parts,
    ) -> Result<Asked, Memory>
        requires idle { parts.old.called ≡ None }
        requires room { key_at gather_part (length self.old.drawn.items + 1) < no_key }
        ensures { IfOk result (λ asked. (tags : ℕ → ℕ)
            → SaysSeen tags self.old self.new parts.old parts.new asked
            (plain.shield_open inner (parts_of parts.old) (kept_of tags self.old))) }
    {
        let key = self.next_key();
        let place = self.next_place();
        let on = parts.new_plain(alloc)?;
        register_all(alloc, place + 1, &[inner], parts)?;
        self.drawn.push(Drawn::Shields { on })?;
        self.tell_all(place, &[inner])?;
        Ok(Asked::Wait { on, key })
    }

    // What is not done, where keys can be drawn.
    fn shield_drawn(
        &mut self,
        alloc: Global,
        inner: FutureId,
        parts: &mut Parts,
    ) -> Result<Asked, Memory>
        requires idle { parts.old.called ≡ None }
        ensures { IfOk result (λ asked. (tags : ℕ → ℕ)
            → SaysSeen tags self.old self.new parts.old parts.new asked
            (draws 2 (plain.shield_open inner (parts_of parts.old) (kept_of tags self.old))
            (kept_of tags self.old))) }
    {
        if !self.can_draw(1, false) {
            return Ok(Asked::Raise(out_of_range(alloc)?));
        }
        self.shield_open(alloc, inner, parts)
    }

    /// `shield` of this future.
    pub fn shield(
        &mut self,
        alloc: Global,
        inner: FutureId,
        parts: &mut Parts,
    ) -> Result<Asked, Memory>
        requires idle { parts.old.called ≡ None }
        ensures { IfOk result (λ asked. (tags : ℕ → ℕ)
            → SaysSeen tags self.old self.new parts.old parts.new asked
            (plain.shield inner (parts_of parts.old) (kept_of tags self.old))) }
    {
        match ended(inner, parts)? {
            Some(answer) => self.at_once(alloc, answer, parts),
            None => self.shield_drawn(alloc, inner, parts),
        }
    }
}
