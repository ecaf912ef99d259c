//! Handles and timers of requests, on the loop's parts.
ghost use Rattle.std.specs.Prelude.{◌≡◌, ◌+◌, ◌<◌, ℕ, true, None, Some, IfOk, OnOk, is_some, length, slice_get};
ghost use Rattle.std.specs.Option.{option_map};
ghost use Rattle.model_loop.specs.Owning.{owner_at};
ghost use Rattle.model_loop.specs.Parts as plain;
ghost use Rattle.model_reach.specs.Part.{key_at, no_key};
ghost use Rattle.model_gather.specs.Gathered.{gather_part, registered_from, settled_as};
ghost use Rattle.model_gather.specs.Wait as wait;
ghost use Rattle.aio_task.specs.Keeps.{ByTimer, Known};
ghost use Rattle.aio_timer.specs.declared.live.TimerId.{TimerId as AnyTimer};
ghost use Rattle.refine_added.specs.Seen.{SeesAll};
ghost use Rattle.aio_gather.specs.Kept.{tag_as};

use aio_base::{Action, Memory, Outcome};
use aio_task::{FutureId, Parts};
use aio_timeout::deadline;
use aio_timer::TimerId;
use std::alloc::Global;

/// The key of a place.
pub fn key_of(place: u64) -> u64
    requires { key_at gather_part place < no_key }
    ensures { result ≡ key_at gather_part place }
{
    4 * place
}

/// How many futures these are.
pub fn count_of(ids: &[FutureId]) -> u64
    ensures { result ≡ length ids.now }
{
    ids.len() as u64
}

/// A handle on each of these futures, with keys from this place on.
pub fn register_all(
    alloc: Global,
    place: u64,
    ids: &[FutureId],
    parts: &mut Parts,
) -> Result<(), Memory>
    requires idle { parts.old.called ≡ None }
    requires room { key_at gather_part (place + length ids.now) < no_key + 4 }
    ensures parts { OnOk result ((known : ℕ → Known) → SeesAll known
        (registered_from gather_part place ids.now) parts.old parts.new) }
    ensures idle { parts.new.called ≡ None }
    ensures owners { (id : ℕ) → owner_at (slice_get parts.old.futures id) ≡ None
        → owner_at (slice_get parts.new.futures id) ≡ None }
    ensures schedule { parts.new.schedule ≡ parts.old.schedule }
    ensures time { parts.new.time ≡ parts.old.time }
{
    let mut next = place;
    for id in ids {
        let key = key_of(next);
        let ticket = parts.ticket(alloc)?;
        parts.on_done(*id, ticket, Action::Extra(key));
        next += 1;
    }
    Ok(())
}

/// A future gets this outcome, if there is one.
pub fn settle(future: FutureId, outcome: Option<Outcome>, parts: &mut Parts)
    requires idle { parts.old.called ≡ None }
    requires own { owner_at (slice_get parts.old.futures future) ≡ None }
    ensures { (known : ℕ → Known) → SeesAll known (settled_as outcome future) parts.old parts.new }
{
    if let Some(outcome) = outcome {
        let _was_pending = parts.resolve(future, outcome);
    }
}

// When a delay is over; one that is negative is none.
fn rings_at(now: u64, delay: i64) -> u64
    ensures { result ≡ wait.rings_at now delay }
{
    if delay < 0 {
        return now;
    }
    deadline(now, delay)
}

/// A timer for the time after this delay, if there is one, whose handle has the key of this place.
pub fn ring_after(
    alloc: Global,
    delay: Option<i64>,
    place: u64,
    parts: &mut Parts,
) -> Result<Option<TimerId>, Memory>
    requires idle { parts.old.called ≡ None }
    requires room { is_some delay ≡ true → key_at gather_part place < no_key }
    ensures steps { OnOk result ((known : ℕ → Known) (p : plain.Parts) → p.time ≡ parts.old.time
        → SeesAll known (wait.rings_after delay (key_at gather_part place) p)
        parts.old parts.new) }
    ensures timer { IfOk result (λ timer. timer ≡ option_map (λ delay. record {
      number = parts.old.schedule.next;
      when = wait.rings_at parts.old.time delay;
    }) delay) }
{
    let Some(delay) = delay else {
        return Ok(None);
    };
    let ticket = parts.ticket(alloc)?;
    let when = rings_at(parts.now(), delay);
    match parts.at(alloc, when, ticket, Action::Extra(key_of(place))) {
        Ok(timer) => Ok(Some(timer)),
        Err(unplaced) => Err(unplaced.cause),
    }
}

/// A timer is given up, if there is one.
pub fn revoke(timer: Option<TimerId>, parts: &mut Parts)
    requires idle { parts.old.called ≡ None }
    ensures steps { (known : ℕ → Known) (tags : ℕ → ℕ)
        → ((id : AnyTimer) → timer ≡ Some id → known (tags id.number) ≡ ByTimer id)
        → SeesAll known (wait.revoked (tag_as tags timer)) parts.old parts.new }
    ensures idle { parts.new.called ≡ None }
    ensures tasks { parts.new.tasks ≡ parts.old.tasks }
    ensures profile { parts.new.profile ≡ parts.old.profile }
{
    if let Some(timer) = timer {
        parts.cancel_timer(timer);
    }
}
