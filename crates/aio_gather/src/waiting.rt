//! `wait`.
ghost use Rattle.std.specs.Prelude.{◌≡◌, ◌+◌, ◌<◌, ℕ, None, Some, IfOk, length, map};
ghost use Rattle.std.specs.Option.{option_map};
ghost use Rattle.model_reach.specs.Part.{key_at, no_key};
ghost use Rattle.model_gather.specs.Gathered as kept;
ghost use Rattle.model_gather.specs.Gathered.{gather_part};
ghost use Rattle.model_gather.specs.Wait as plain;
ghost use Rattle.aio_task.specs.View.{parts as parts_of};
ghost use Rattle.aio_gather.specs.Kept.{argument_as, kept_of, mode_as};
ghost use Rattle.aio_gather.specs.Seen.{SaysSeen, tag_behind, timed};

use crate::counting::out_of_range;
use crate::drawn::{Argument, Drawn, WaitMode, Waiting};
use crate::gather::Gather;
use crate::handles::{count_of, register_all, ring_after};
use crate::requesting::forget_arguments;
use aio_base::{Kind, Memory, exception};
use aio_extra::Asked;
use aio_task::{FutureId, Parts};
use indexmap::IndexSet;
use std::alloc::Global;

// Each argument once, where it comes first.
fn distinct_arguments(alloc: Global, arguments: &[Argument]) -> Result<Vec<Argument>, Memory>
    ensures { IfOk result (λ those. map argument_as those.items
        ≡ kept.distinct_arguments (map argument_as arguments.now)) }
{
    let mut seen: IndexSet<FutureId> = IndexSet::new(alloc);
    let mut those = Vec::new(alloc);
    for it in arguments {
        let is_new = seen.insert(it.future)?;
        if is_new {
            let value = it.value.clone()?;
            those.push(Argument {
                value,
                future: it.future,
            })?;
        }
    }
    Ok(those)
}

fn futures_of(alloc: Global, arguments: &[Argument]) -> Result<Vec<FutureId>, Memory>
    ensures { IfOk result
        (λ ids. ids.items ≡ kept.futures_of (map argument_as arguments.now)) }
{
    let mut ids = Vec::new(alloc);
    for it in arguments {
        ids.push(it.future)?;
    }
    Ok(ids)
}

fn empty_set(alloc: Global) -> Result<Asked, Memory>
    ensures { IfOk result (λ asked. asked ≡ Asked.Raise plain.empty_set) }
{
    let text = "Set of Tasks/Futures is empty.";
    Ok(Asked::Raise(exception(alloc, Kind::ValueError, text)?))
}

fn bad_mode(alloc: Global) -> Result<Asked, Memory>
    ensures { IfOk result (λ asked. asked ≡ Asked.Raise plain.bad_mode) }
{
    Ok(Asked::Raise(exception(alloc, Kind::ValueError, "mode")?))
}

impl Gather {
    // The task waits on a future of its own. A handle is registered on each argument, and behind
    // them stands the timer's.
    fn wait_all(
        &mut self,
        alloc: Global,
        mode: WaitMode,
        delay: Option<i64>,
        arguments: Vec<Argument>,
        waited: &[FutureId],
        parts: &mut Parts,
    ) -> Result<Asked, Memory>
        requires idle { parts.old.called ≡ None }
        requires waited { waited.now ≡ kept.futures_of (map argument_as arguments.items) }
        requires room { key_at gather_part
            (length self.old.drawn.items + length waited.now + plain.one_if_some delay) < no_key }
        ensures { IfOk result (λ asked. (tags : ℕ → ℕ) (next : ℕ)
            → tags parts.old.schedule.next
            ≡ tag_behind (map argument_as arguments.items) (timed next parts.old)
            → SaysSeen tags self.old self.new parts.old parts.new asked
            (plain.wait_all (mode_as mode) delay (map argument_as arguments.items)
            (timed next parts.old) (kept_of tags self.old))) }
    {
        let key = self.next_key();
        let place = self.next_place();
        let left = count_of(waited);
        let on = parts.new_plain(alloc)?;
        register_all(alloc, place + 1, waited, parts)?;
        let timer = ring_after(alloc, delay, place + 1 + left, parts)?;
        self.drawn.push(Drawn::Waits(Waiting {
            on,
            arguments,
            mode,
            left,
            timer,
        }))?;
        self.tell_all(place, waited)?;
        self.ring_one(place, delay.is_some())?;
        Ok(Asked::Wait { on, key })
    }

    // Of distinct arguments, one at least.
    fn wait_distinct(
        &mut self,
        alloc: Global,
        mode: WaitMode,
        delay: Option<i64>,
        arguments: Vec<Argument>,
        parts: &mut Parts,
    ) -> Result<Asked, Memory>
        requires idle { parts.old.called ≡ None }
        ensures { IfOk result (λ asked. (tags : ℕ → ℕ) (next : ℕ)
            → tags parts.old.schedule.next
            ≡ tag_behind (map argument_as arguments.items) (timed next parts.old)
            → SaysSeen tags self.old self.new parts.old parts.new asked
            (kept.draws (1 + length (map argument_as arguments.items) + plain.one_if_some delay)
            (plain.wait_all (mode_as mode) delay (map argument_as arguments.items)
            (timed next parts.old) (kept_of tags self.old)) (kept_of tags self.old))) }
    {
        let waited = futures_of(alloc, arguments.as_slice())?;
        if !self.can_draw(count_of(waited.as_slice()), delay.is_some()) {
            forget_arguments(arguments);
            return Ok(Asked::Raise(out_of_range(alloc)?));
        }
        self.wait_all(alloc, mode, delay, arguments, waited.as_slice(), parts)
    }

    // Of one argument at least.
    fn wait_some(
        &mut self,
        alloc: Global,
        mode: WaitMode,
        delay: Option<i64>,
        arguments: &[Argument],
        parts: &mut Parts,
    ) -> Result<Asked, Memory>
        requires idle { parts.old.called ≡ None }
        ensures { IfOk result (λ asked. (tags : ℕ → ℕ) (next : ℕ)
            → tags parts.old.schedule.next
            ≡ tag_behind (kept.distinct_arguments (map argument_as arguments.now))
            (timed next parts.old)
            → SaysSeen tags self.old self.new parts.old parts.new asked
            (kept.draws (1 + length (kept.distinct_arguments (map argument_as arguments.now))
            + plain.one_if_some delay)
            (plain.wait_all (mode_as mode) delay
            (kept.distinct_arguments (map argument_as arguments.now))
            (timed next parts.old) (kept_of tags self.old)) (kept_of tags self.old))) }
    {
        let those = distinct_arguments(alloc, arguments)?;
        self.wait_distinct(alloc, mode, delay, those, parts)
    }

    /// `wait` for these arguments.
    pub fn wait(
        &mut self,
        alloc: Global,
        mode: Option<WaitMode>,
        delay: Option<i64>,
        arguments: &[Argument],
        parts: &mut Parts,
    ) -> Result<Asked, Memory>
        requires idle { parts.old.called ≡ None }
        ensures { IfOk result (λ asked. (tags : ℕ → ℕ) (next : ℕ)
            → tags parts.old.schedule.next
            ≡ tag_behind (kept.distinct_arguments (map argument_as arguments.now))
            (timed next parts.old)
            → SaysSeen tags self.old self.new parts.old parts.new asked
            (plain.wait (option_map mode_as mode) delay (map argument_as arguments.now)
            (timed next parts.old) (kept_of tags self.old))) }
    {
        if arguments.is_empty() {
            let refusal = empty_set(alloc)?;
            return self.at_once(alloc, refusal, parts);
        }
        match mode {
            Some(over) => self.wait_some(alloc, over, delay, arguments, parts),
            None => {
                let refusal = bad_mode(alloc)?;
                self.at_once(alloc, refusal, parts)
            }
        }
    }
}
