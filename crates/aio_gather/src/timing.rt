//! `wait_for`.
ghost use Rattle.std.specs.Prelude.{◌≡◌, ◌+◌, ◌<◌, ℕ, None, IfOk, length};
ghost use Rattle.model_reach.specs.Part.{key_at, no_key};
ghost use Rattle.model_gather.specs.Gathered.{gather_part};
ghost use Rattle.model_gather.specs.Wait as wait;
ghost use Rattle.model_gather.specs.WaitFor as plain;
ghost use Rattle.aio_gather.specs.Kept.{kept_of};
ghost use Rattle.aio_gather.specs.Seen.{SaysSeen, timed};

use crate::counting::out_of_range;
use crate::drawn::{Drawn, TimedState, TimedWait};
use crate::gather::Gather;
use crate::handles::ring_after;
use aio_base::{Kind, Memory, exception};
use aio_extra::Asked;
use aio_task::{FutureId, Parts};
use std::alloc::Global;

// None, or a millisecond at least.
fn may_time(delay: Option<i64>) -> bool
    ensures { result ≡ plain.may_time delay }
{
    match delay {
        Some(delay) => delay > 0,
        None => true,
    }
}

fn bad_timeout(alloc: Global) -> Result<Asked, Memory>
    ensures { IfOk result (λ asked. asked ≡ Asked.Raise plain.bad_timeout) }
{
    Ok(Asked::Raise(exception(alloc, Kind::ValueError, "timeout")?))
}

impl Gather {
    // The task waits on what it is given, which a timer's handle cuts short.
    fn wait_for_all(
        &mut self,
        alloc: Global,
        task: u32,
        on: FutureId,
        delay: Option<i64>,
        parts: &mut Parts,
    ) -> Result<Asked, Memory>
        requires idle { parts.old.called ≡ None }
        requires room { key_at gather_part
            (length self.old.drawn.items + wait.one_if_some delay) < no_key }
        ensures { IfOk result (λ asked. (tags : ℕ → ℕ) (next : ℕ)
            → tags parts.old.schedule.next ≡ next
            → SaysSeen tags self.old self.new parts.old parts.new asked
            (plain.wait_for_all task on delay (timed next parts.old) (kept_of tags self.old))) }
    {
        let key = self.next_key();
        let place = self.next_place();
        let stored = parts.cancelling(task);
        let timer = ring_after(alloc, delay, place + 1, parts)?;
        let state = TimedState::Timed;
        self.drawn.push(Drawn::WaitsFor(TimedWait {
            task,
            stored,
            timer,
            state,
        }))?;
        self.ring_one(place, delay.is_some())?;
        Ok(Asked::Wait { on, key })
    }

    /// `wait_for` this future.
    pub fn wait_for(
        &mut self,
        alloc: Global,
        task: u32,
        on: FutureId,
        delay: Option<i64>,
        parts: &mut Parts,
    ) -> Result<Asked, Memory>
        requires idle { parts.old.called ≡ None }
        ensures { IfOk result (λ asked. (tags : ℕ → ℕ) (next : ℕ)
            → tags parts.old.schedule.next ≡ next
            → SaysSeen tags self.old self.new parts.old parts.new asked
            (plain.wait_for task on delay (timed next parts.old) (kept_of tags self.old))) }
    {
        if !may_time(delay) {
            let refusal = bad_timeout(alloc)?;
            return self.at_once(alloc, refusal, parts);
        }
        if !self.can_draw(0, delay.is_some()) {
            return Ok(Asked::Raise(out_of_range(alloc)?));
        }
        self.wait_for_all(alloc, task, on, delay, parts)
    }
}
