//! Tasks of requests go on.
ghost use Rattle.std.specs.Prelude.{◌≡◌, ◌-◌, ◌&&◌, ℕ, nat_le, None, Some, IfOk, map, slice_get, if◌then◌else◌};
ghost use Rattle.model_loop.specs.Tasks.{cancelling};
ghost use Rattle.model_loop.specs.Timeouts.{timeout_exception};
ghost use Rattle.model_machine.specs.Extra.{Raises};
ghost use Rattle.model_reach.specs.Part.{passes};
ghost use Rattle.model_gather.specs.Gathered as kept;
ghost use Rattle.model_gather.specs.Serving as plain;
ghost use Rattle.model_gather.specs.Wait as wait;
ghost use Rattle.model_gather.specs.WaitFor as wait_for;
ghost use Rattle.aio_task.specs.View.{parts as parts_of};
ghost use Rattle.aio_gather.specs.Kept.{argument_as, kept_of, timed_as};
ghost use Rattle.aio_gather.specs.Ended.{expired_so, finished_so, list_of_two, values_where};
ghost use Rattle.aio_gather.specs.Requested.{is_wanted};
ghost use Rattle.aio_gather.specs.Seen.{Says, SaysSeen};
ghost use Rattle.aio_gather.specs.declared.drawn.Drawn.TheVariants as drawn;

use crate::counting::{forget_value, out_of_range};
use crate::drawn::{Argument, Drawn, TimedState, TimedWait};
use crate::gather::Gather;
use crate::handles::revoke;
use aio_base::{Exc, Input, Kind, Memory, Value, depth, weight};
use aio_extra::Asked;
use aio_task::{FutureId, Parts};
use std::alloc::Global;

// The greatest weight and the greatest depth of a value.
const HEAVIEST: u64 = 1_048_576;

const DEEPEST: u64 = 64;

/// What was waited for is what the request comes to.
pub fn passed(input: Input) -> Asked
    ensures { Says result (passes input) }
{
    match input {
        Input::Send(value) => Asked::Answer(value),
        Input::Throw(fault) => Asked::Raise(fault),
    }
}

fn cancels_in(input: &Input) -> bool
    ensures { result ≡ wait_for.cancels_in input.now }
{
    match input {
        Input::Send(_) => false,
        Input::Throw(fault) => fault.kind() == Kind::CancelledError,
    }
}

fn is_wanted(future: FutureId, pending: bool, parts: &Parts) -> bool
    ensures { result ≡ is_wanted pending (parts_of parts.now) future }
{
    parts.is_pending(future) == pending
}

// The values of those arguments that are pending, or of those that are not.
fn values_among(
    alloc: Global,
    arguments: &[Argument],
    pending: bool,
    parts: &Parts,
) -> Result<Value, Memory>
    ensures { IfOk result (λ list. list
        ≡ values_where pending (parts_of parts.now) (map argument_as arguments.now)) }
{
    let mut values = Vec::new(alloc);
    for it in arguments {
        let wanted = is_wanted(it.future, pending, parts);
        if wanted {
            let value = it.value.clone()?;
            values.push(value)?;
        }
    }
    Ok(Value::list_from(alloc, values)?)
}

// A list of two values.
fn both(alloc: Global, first: Value, second: Value) -> Result<Value, Memory>
    ensures { IfOk result (λ list. list ≡ list_of_two first second) }
{
    let mut items = Vec::new(alloc);
    items.push(first)?;
    items.push(second)?;
    Ok(Value::list_from(alloc, items)?)
}

// The list of those that are done and the list of the others, unless it is too heavy.
fn sorted(alloc: Global, arguments: &[Argument], parts: &Parts) -> Result<Asked, Memory>
    ensures { IfOk result (λ asked. Says asked
        (wait.sorted (parts_of parts.now) (map argument_as arguments.now))) }
{
    let done = values_among(alloc, arguments, false, parts)?;
    let left = values_among(alloc, arguments, true, parts)?;
    let value = both(alloc, done, left)?;
    if weight(&value) <= HEAVIEST && depth(&value) <= DEEPEST {
        return Ok(Asked::Answer(value));
    }
    forget_value(value);
    Ok(Asked::Raise(out_of_range(alloc)?))
}

// What a wait comes to, of these arguments.
fn waited(
    alloc: Global,
    arguments: &[Argument],
    input: Input,
    parts: &Parts,
) -> Result<Asked, Memory>
    ensures { IfOk result (λ asked. (it : kept.Waiting)
        → it.arguments ≡ map argument_as arguments.now
        → Says asked (wait.wait_says input it (parts_of parts.now))) }
{
    match input {
        Input::Send(value) => {
            forget_value(value);
            sorted(alloc, arguments, parts)
        }
        Input::Throw(fault) => Ok(Asked::Raise(fault)),
    }
}

// Whether a `wait_for` of this task timed out, which goes on so: no other cancel is left that came
// since it began.
fn is_timed_out(task: u32, stored: u64, input: &Input, parts: &Parts) -> bool
    ensures { result ≡ (nat_le (cancelling (parts_of parts.now) task - 1) stored
        && wait_for.cancels_in input.now) }
{
    parts.cancelling(task).saturating_sub(1) <= stored && cancels_in(input)
}

// A `wait_for` raises TimeoutError, or passes the input.
fn timed_out(over: bool, input: Input) -> Asked
    ensures { Says result (if over then Raises timeout_exception else passes input) }
{
    if over {
        forget_input(input);
        return Asked::Raise(Exc::bare(Kind::TimeoutError));
    }
    passed(input)
}

fn forget_input(_input: Input) {}

impl Gather {
    // The task of the `wait_for` at this place goes on after its time was over.
    fn expired(&mut self, place: u64, it: TimedWait, input: Input, parts: &mut Parts) -> Asked
        requires idle { parts.old.called ≡ None }
        requires there { slice_get self.old.drawn.items place ≡ Some (drawn.WaitsFor it) }
        ensures { (tags : ℕ → ℕ) → SaysSeen tags self.old self.new parts.old parts.new result
            (expired_so place input (timed_as tags it) (parts_of parts.old)
            (kept_of tags self.old)) }
    {
        let over = is_timed_out(it.task, it.stored, &input, parts);
        self.set_state(place, TimedState::Expired, it.timer);
        revoke(it.timer, parts);
        let _left = parts.uncancel(it.task);
        timed_out(over, input)
    }

    // It goes on before that.
    fn finished(&mut self, place: u64, it: TimedWait, input: Input, parts: &mut Parts) -> Asked
        requires idle { parts.old.called ≡ None }
        requires there { slice_get self.old.drawn.items place ≡ Some (drawn.WaitsFor it) }
        ensures { (tags : ℕ → ℕ) → SaysSeen tags self.old self.new parts.old parts.new result
            (finished_so place input (timed_as tags it) (kept_of tags self.old)) }
    {
        self.set_state(place, TimedState::Finished, None);
        revoke(it.timer, parts);
        passed(input)
    }

    // The task of the `wait_for` at this place goes on.
    fn timed_woken(&mut self, place: u64, it: TimedWait, input: Input, parts: &mut Parts) -> Asked
        requires idle { parts.old.called ≡ None }
        requires there { slice_get self.old.drawn.items place ≡ Some (drawn.WaitsFor it) }
        ensures { (tags : ℕ → ℕ) → SaysSeen tags self.old self.new parts.old parts.new result
            (wait_for.wait_for_woken place input (timed_as tags it) (parts_of parts.old)
            (kept_of tags self.old)) }
    {
        match it.state {
            TimedState::Expiring => self.expired(place, it, input, parts),
            TimedState::Timed => self.finished(place, it, input, parts),
            TimedState::Expired => self.finished(place, it, input, parts),
            TimedState::Finished => self.finished(place, it, input, parts),
        }
    }

    /// The request at this place is woken.
    pub fn wake_at(
        &mut self,
        alloc: Global,
        place: u64,
        input: Input,
        parts: &mut Parts,
    ) -> Result<Asked, Memory>
        requires idle { parts.old.called ≡ None }
        ensures { IfOk result (λ asked. (tags : ℕ → ℕ)
            → SaysSeen tags self.old self.new parts.old parts.new asked
            (plain.woken (slice_get (kept_of tags self.old).drawn place) place input
            (parts_of parts.old) (kept_of tags self.old))) }
    {
        match self.drawn.get(place as usize) {
            Some(Drawn::Waits(it)) => {
                let timer = it.timer;
                let asked = waited(alloc, it.arguments.as_slice(), input, parts);
                revoke(timer, parts);
                asked
            }
            Some(Drawn::WaitsFor(it)) => {
                let it = *it;
                Ok(self.timed_woken(place, it, input, parts))
            }
            Some(Drawn::Answered) => Ok(passed(input)),
            Some(Drawn::Gathers(_)) => Ok(passed(input)),
            Some(Drawn::Shields { .. }) => Ok(passed(input)),
            Some(Drawn::Tells { .. }) => Ok(passed(input)),
            Some(Drawn::Rings { .. }) => Ok(passed(input)),
            None => Ok(passed(input)),
        }
    }
}
