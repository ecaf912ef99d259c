//! Requests that waited, as their tasks go on.
ghost use Rattle.std.specs.Prelude.{◌≡◌, ◌<◌, ◌++◌, [], ℕ, None, Some, true, IfOk, OnOk, length, slice_get};
ghost use Rattle.model_value.specs.Value.{Value as AnyValue};
ghost use Rattle.model_loop.specs.Tasks.{is_cancelled as plain_is_cancelled};
ghost use Rattle.model_reach.specs.Part.{only_says, passes};
ghost use Rattle.model_sync.specs.Synced as synced;
ghost use Rattle.model_sync.specs.Synced.{waiting_at};
ghost use Rattle.model_sync.specs.Locks as locks;
ghost use Rattle.model_sync.specs.Events as events;
ghost use Rattle.model_sync.specs.Queues as queues;
ghost use Rattle.model_sync.specs.Serving.{named, woken};
ghost use Rattle.aio_task.specs.View.{parts as parts_of};
ghost use Rattle.aio_sync.specs.Seen.{Says, SaysSeen, kept_of, own_of};
ghost use Rattle.aio_sync.specs.Woken.{are_free};

use crate::keys::Found;
use crate::queue::Got;
use crate::requests::Sync;
use aio_base::{Exc, Input, Kind, Memory, Value};
use aio_extra::Asked;
use aio_task::{FutureId, Parts};
use std::alloc::Global;

fn is_cancelled(fault: &Exc) -> bool
    ensures { result ≡ plain_is_cancelled fault.now }
{
    fault.kind() == Kind::CancelledError
}

// The answer of what was waited for.
fn passed(input: Input) -> Asked
    ensures { Says result (passes input) }
{
    match input {
        Input::Send(value) => Asked::Answer(value),
        Input::Throw(fault) => Asked::Raise(fault),
    }
}

fn forget(_value: Value) {}

impl Sync {
    // One that waited for a lock.
    fn acquired(
        &mut self,
        place: u64,
        id: usize,
        on: FutureId,
        input: Input,
        parts: &mut Parts,
    ) -> Asked
        requires idle { parts.old.called ≡ None }
        requires free { are_free parts.old.futures (own_of self.old) ≡ true }
        ensures { SaysSeen (kept_of self.new) parts.old parts.new result
            (named (slice_get (kept_of self.old).locks id) input
            (λ lock. locks.acquired place id on input lock (kept_of self.old)) (kept_of self.old)) }
    {
        let Some(lock) = self.locks.get_mut(id) else {
            return passed(input);
        };
        match input {
            Input::Send(value) => {
                forget(value);
                lock.taken(on);
                self.keys.end(place);
                Asked::Answer(Value::bool(true))
            }
            Input::Throw(fault) => {
                lock.give_up(on, is_cancelled(&fault), parts);
                self.keys.end(place);
                Asked::Raise(fault)
            }
        }
    }

    // One that waited for an event.
    fn waited(&mut self, place: u64, id: usize, on: FutureId, input: Input, parts: &Parts) -> Asked
        ensures { SaysSeen (kept_of self.new) parts.now parts.now result
            (named (slice_get (kept_of self.old).events id) input
            (λ event. events.waited place id on input event (kept_of self.old)) (kept_of self.old)) }
    {
        let Some(event) = self.events.get_mut(id) else {
            return passed(input);
        };
        event.leave(on);
        self.keys.end(place);
        match input {
            Input::Send(value) => {
                forget(value);
                Asked::Answer(Value::bool(true))
            }
            Input::Throw(fault) => Asked::Raise(fault),
        }
    }

    // One that waited for room tries again.
    fn put_again(
        &mut self,
        alloc: Global,
        key: u64,
        place: u64,
        id: usize,
        parts: &mut Parts,
    ) -> Result<Asked, Memory>
        requires idle { parts.old.called ≡ None }
        requires free { are_free parts.old.futures (own_of self.old) ≡ true }
        ensures { IfOk result (λ asked. (value : AnyValue) (on : ℕ) (queue : synced.Queue)
            → waiting_at place (kept_of self.old) ≡ Some (synced.Puts id value on)
            → slice_get (kept_of self.old).queues id ≡ Some queue
            → SaysSeen (kept_of self.new) parts.old parts.new asked
            (synced.tried_again key place (queues.set_queue id)
            (synced.Puts id value (length parts.old.futures))
            (queues.put_in (parts_of parts.old) value queue) (parts_of parts.old)
            (kept_of self.old))) }
    {
        let Some(queue) = self.queues.get_mut(id) else {
            return Ok(Asked::Answer(Value::nothing()));
        };
        if queue.is_full() {
            let on = queue.wait_to_put(alloc, parts)?;
            self.keys.wait_on(place, on);
            return Ok(Asked::Wait { on, key });
        }
        let Some(value) = self.keys.end_put(place) else {
            return Ok(Asked::Answer(Value::nothing()));
        };
        let Some(queue) = self.queues.get_mut(id) else {
            forget(value);
            return Ok(Asked::Answer(Value::nothing()));
        };
        queue.put(value, parts)?;
        Ok(Asked::Answer(Value::nothing()))
    }

    // One that waited for a value tries again.
    fn get_again(
        &mut self,
        alloc: Global,
        key: u64,
        place: u64,
        id: usize,
        parts: &mut Parts,
    ) -> Result<Asked, Memory>
        requires idle { parts.old.called ≡ None }
        requires free { are_free parts.old.futures (own_of self.old) ≡ true }
        ensures { IfOk result (λ asked. (on : ℕ) (queue : synced.Queue)
            → waiting_at place (kept_of self.old) ≡ Some (synced.Gets id on)
            → slice_get (kept_of self.old).queues id ≡ Some queue
            → SaysSeen (kept_of self.new) parts.old parts.new asked
            (synced.tried_again key place (queues.set_queue id)
            (synced.Gets id (length parts.old.futures))
            (queues.get_from (parts_of parts.old) queue) (parts_of parts.old)
            (kept_of self.old))) }
    {
        let Some(queue) = self.queues.get_mut(id) else {
            return Ok(Asked::Answer(Value::nothing()));
        };
        match queue.get(alloc, parts)? {
            Got::Value(value) => {
                self.keys.end(place);
                Ok(Asked::Answer(value))
            }
            Got::Waits(on) => {
                self.keys.wait_on(place, on);
                Ok(Asked::Wait { on, key })
            }
        }
    }

    // One that waited for room.
    fn putting(
        &mut self,
        alloc: Global,
        key: u64,
        place: u64,
        id: usize,
        on: FutureId,
        input: Input,
        parts: &mut Parts,
    ) -> Result<Asked, Memory>
        requires idle { parts.old.called ≡ None }
        requires free { are_free parts.old.futures (own_of self.old) ≡ true }
        ensures { IfOk result (λ asked. (value : AnyValue)
            → waiting_at place (kept_of self.old) ≡ Some (synced.Puts id value on)
            → SaysSeen (kept_of self.new) parts.old parts.new asked
            (named (slice_get (kept_of self.old).queues id) input
            (λ queue. queues.putting key place id on value input queue (parts_of parts.old)
            (kept_of self.old)) (kept_of self.old))) }
    {
        let Some(queue) = self.queues.get_mut(id) else {
            return Ok(passed(input));
        };
        match input {
            Input::Send(value) => {
                forget(value);
                self.put_again(alloc, key, place, id, parts)
            }
            Input::Throw(fault) => {
                queue.leave_putters(on, parts);
                self.keys.end(place);
                Ok(Asked::Raise(fault))
            }
        }
    }

    // One that waited for a value.
    fn getting(
        &mut self,
        alloc: Global,
        key: u64,
        place: u64,
        id: usize,
        on: FutureId,
        input: Input,
        parts: &mut Parts,
    ) -> Result<Asked, Memory>
        requires idle { parts.old.called ≡ None }
        requires free { are_free parts.old.futures (own_of self.old) ≡ true }
        ensures { IfOk result (λ asked.
            waiting_at place (kept_of self.old) ≡ Some (synced.Gets id on)
            → SaysSeen (kept_of self.new) parts.old parts.new asked
            (named (slice_get (kept_of self.old).queues id) input
            (λ queue. queues.getting key place id on input queue (parts_of parts.old)
            (kept_of self.old)) (kept_of self.old))) }
    {
        let Some(queue) = self.queues.get_mut(id) else {
            return Ok(passed(input));
        };
        match input {
            Input::Send(value) => {
                forget(value);
                self.get_again(alloc, key, place, id, parts)
            }
            Input::Throw(fault) => {
                queue.leave_getters(on, parts);
                self.keys.end(place);
                Ok(Asked::Raise(fault))
            }
        }
    }

    /// The task of the request under the key at this place goes on.
    pub fn woken(
        &mut self,
        alloc: Global,
        key: u64,
        place: u64,
        input: Input,
        parts: &mut Parts,
    ) -> Result<Asked, Memory>
        requires idle { parts.old.called ≡ None }
        requires free { are_free parts.old.futures (own_of self.old) ≡ true }
        ensures { IfOk result (λ asked. SaysSeen (kept_of self.new) parts.old parts.new asked
            (woken (waiting_at place (kept_of self.old)) key place input (parts_of parts.old)
            (kept_of self.old))) }
    {
        match self.keys.find(place) {
            Found::Nothing => Ok(passed(input)),
            Found::Acquires { lock, on } => Ok(self.acquired(place, lock, on, input, parts)),
            Found::Awaits { event, on } => Ok(self.waited(place, event, on, input, parts)),
            Found::Puts { queue, on } => {
                self.putting(alloc, key, place, queue, on, input, parts)
            }
            Found::Gets { queue, on } => {
                self.getting(alloc, key, place, queue, on, input, parts)
            }
        }
    }
}
