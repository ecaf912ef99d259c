//! Locks, events and queues, as they are asked.
ghost use Rattle.std.specs.Prelude.{◌≡◌, ◌<◌, ◌^◌, ◌++◌, [], ℕ, None, true, pos, IfOk, OnOk, length};
ghost use Rattle.model_value.specs.Value.{Int, exception_of};
ghost use Rattle.model_reach.specs.Part.{key_at, no_key};
ghost use Rattle.model_sync.specs.Synced as synced;
ghost use Rattle.model_sync.specs.Synced.{none_synced, raises, sync_part};
ghost use Rattle.model_sync.specs.Locks as locks;
ghost use Rattle.model_sync.specs.Locks.{on_lock};
ghost use Rattle.model_sync.specs.Events as events;
ghost use Rattle.model_sync.specs.Events.{on_event};
ghost use Rattle.model_sync.specs.Queues as queues;
ghost use Rattle.model_sync.specs.Queues.{on_queue};
ghost use Rattle.aio_task.specs.View.{parts as parts_of};
ghost use Rattle.aio_sync.specs.Keeps.{waiting_as};
ghost use Rattle.aio_sync.specs.Seen.{SaysSeen, kept_of, own_of};
ghost use Rattle.aio_sync.specs.Woken.{are_free};

use crate::event::Event;
use crate::keys::{Keys, Waiting};
use crate::lock::Lock;
use crate::number::place_in;
use crate::queue::{Got, Queue};
use aio_base::{Kind, Memory, Value, exception};
use aio_extra::Asked;
use aio_task::{FutureId, Parts};
use std::alloc::Global;

/// What serves locks, events and queues, each numbered in order of making.
#[derive(Drop)]
pub struct Sync {
    pub keys: Keys,
    pub locks: Vec<Lock>,
    pub events: Vec<Event>,
    pub queues: Vec<Queue>,
}

fn number_of(len: usize) -> Value
    requires { len < 2 ^ 63 }
    ensures { result ≡ Int (pos len) }
{
    Value::int(len as i64)
}

impl Sync {
    /// Nothing was asked.
    pub fn new(alloc: Global) -> Sync
        ensures { kept_of result ≡ none_synced }
    {
        Sync {
            keys: Keys::new(alloc),
            locks: Vec::new(alloc),
            events: Vec::new(alloc),
            queues: Vec::new(alloc),
        }
    }

    // A request is answered at once. It takes no memory.
    fn answer(&mut self, value: Value) -> Asked
        requires room { key_at sync_part self.old.keys.drawn < no_key }
        ensures answer { result ≡ Asked.Answer value }
        ensures after { kept_of self.new ≡ synced.draw (kept_of self.old) }
    {
        self.keys.draw();
        Asked::Answer(value)
    }

    // It raises this.
    fn raise(&mut self, alloc: Global, kind: Kind, text: &str) -> Result<Asked, Memory>
        requires room { key_at sync_part self.old.keys.drawn < no_key }
        ensures answer { IfOk result (λ asked. asked ≡ Asked.Raise (exception_of kind text.now)) }
        ensures after { OnOk result (kept_of self.new ≡ synced.draw (kept_of self.old)) }
    {
        let fault = exception(alloc, kind, text)?;
        self.keys.draw();
        Ok(Asked::Raise(fault))
    }

    // It waits on this future.
    fn wait_on(&mut self, it: Waiting, on: FutureId) -> Result<Asked, Memory>
        requires room { key_at sync_part self.old.keys.drawn < no_key }
        ensures answer { IfOk result
            (λ asked. asked ≡ Asked.Wait on (synced.next_key (kept_of self.old))) }
        ensures after { OnOk result
            (kept_of self.new ≡ synced.wait_last (waiting_as it) (kept_of self.old)) }
    {
        let key = self.keys.wait(it)?;
        Ok(Asked::Wait { on, key })
    }

    // ---- locks
    fn no_lock(&mut self, alloc: Global, parts: &Parts) -> Result<Asked, Memory>
        requires room { key_at sync_part self.old.keys.drawn < no_key }
        ensures { IfOk result (λ asked. SaysSeen (kept_of self.new) parts.now parts.now asked
            (raises locks.no_lock (kept_of self.old))) }
    {
        self.raise(alloc, Kind::ValueError, "no such lock")
    }

    /// A new lock's number.
    pub fn make_lock(&mut self, alloc: Global, parts: &Parts) -> Result<Asked, Memory>
        requires room { key_at sync_part self.old.keys.drawn < no_key }
        ensures { IfOk result (λ asked. SaysSeen (kept_of self.new) parts.now parts.now asked
            (locks.make_lock (kept_of self.old))) }
    {
        let number = self.locks.len();
        self.locks.push(Lock::new(alloc))?;
        Ok(self.answer(number_of(number)))
    }

    /// The task has the lock, or waits for it.
    pub fn acquire(
        &mut self,
        alloc: Global,
        number: i64,
        parts: &mut Parts,
    ) -> Result<Asked, Memory>
        requires idle { parts.old.called ≡ None }
        requires free { are_free parts.old.futures (own_of self.old) ≡ true }
        requires room { key_at sync_part self.old.keys.drawn < no_key }
        ensures { IfOk result (λ asked. SaysSeen (kept_of self.new) parts.old parts.new asked
            (on_lock locks.acquire number (parts_of parts.old) (kept_of self.old))) }
    {
        let Some(place) = place_in(number) else {
            return self.no_lock(alloc, parts);
        };
        let Some(lock) = self.locks.get_mut(place) else {
            return self.no_lock(alloc, parts);
        };
        match lock.take(alloc, parts)? {
            None => Ok(self.answer(Value::bool(true))),
            Some(on) => self.wait_on(Waiting::Acquires { lock: place, on }, on),
        }
    }

    /// The lock is free, and the first who waits is woken.
    pub fn release(
        &mut self,
        alloc: Global,
        number: i64,
        parts: &mut Parts,
    ) -> Result<Asked, Memory>
        requires idle { parts.old.called ≡ None }
        requires free { are_free parts.old.futures (own_of self.old) ≡ true }
        requires room { key_at sync_part self.old.keys.drawn < no_key }
        ensures { IfOk result (λ asked. SaysSeen (kept_of self.new) parts.old parts.new asked
            (on_lock locks.release number (parts_of parts.old) (kept_of self.old))) }
    {
        let Some(place) = place_in(number) else {
            return self.no_lock(alloc, parts);
        };
        let Some(lock) = self.locks.get_mut(place) else {
            return self.no_lock(alloc, parts);
        };
        if lock.release(parts) {
            return Ok(self.answer(Value::nothing()));
        }
        self.raise(alloc, Kind::RuntimeError, "Lock is not acquired.")
    }

    /// Whether the lock is locked.
    pub fn is_locked(&mut self, alloc: Global, number: i64, parts: &Parts) -> Result<Asked, Memory>
        requires room { key_at sync_part self.old.keys.drawn < no_key }
        ensures { IfOk result (λ asked. SaysSeen (kept_of self.new) parts.now parts.now asked
            (on_lock locks.is_locked number (parts_of parts.now) (kept_of self.old))) }
    {
        let Some(place) = place_in(number) else {
            return self.no_lock(alloc, parts);
        };
        let Some(lock) = self.locks.get(place) else {
            return self.no_lock(alloc, parts);
        };
        let locked = lock.is_locked();
        Ok(self.answer(Value::bool(locked)))
    }

    // ---- events
    fn no_event(&mut self, alloc: Global, parts: &Parts) -> Result<Asked, Memory>
        requires room { key_at sync_part self.old.keys.drawn < no_key }
        ensures { IfOk result (λ asked. SaysSeen (kept_of self.new) parts.now parts.now asked
            (raises events.no_event (kept_of self.old))) }
    {
        self.raise(alloc, Kind::ValueError, "no such event")
    }

    /// A new event's number.
    pub fn make_event(&mut self, alloc: Global, parts: &Parts) -> Result<Asked, Memory>
        requires room { key_at sync_part self.old.keys.drawn < no_key }
        ensures { IfOk result (λ asked. SaysSeen (kept_of self.new) parts.now parts.now asked
            (events.make_event (kept_of self.old))) }
    {
        let number = self.events.len();
        self.events.push(Event::new(alloc))?;
        Ok(self.answer(number_of(number)))
    }

    /// The event is set, and all who wait are woken.
    pub fn set(&mut self, alloc: Global, number: i64, parts: &mut Parts) -> Result<Asked, Memory>
        requires idle { parts.old.called ≡ None }
        requires free { are_free parts.old.futures (own_of self.old) ≡ true }
        requires room { key_at sync_part self.old.keys.drawn < no_key }
        ensures { IfOk result (λ asked. SaysSeen (kept_of self.new) parts.old parts.new asked
            (on_event events.set number (parts_of parts.old) (kept_of self.old))) }
    {
        let Some(place) = place_in(number) else {
            return self.no_event(alloc, parts);
        };
        let Some(event) = self.events.get_mut(place) else {
            return self.no_event(alloc, parts);
        };
        event.set(parts);
        Ok(self.answer(Value::nothing()))
    }

    /// The event isn't set from now on.
    pub fn clear(&mut self, alloc: Global, number: i64, parts: &Parts) -> Result<Asked, Memory>
        requires room { key_at sync_part self.old.keys.drawn < no_key }
        ensures { IfOk result (λ asked. SaysSeen (kept_of self.new) parts.now parts.now asked
            (on_event events.clear number (parts_of parts.now) (kept_of self.old))) }
    {
        let Some(place) = place_in(number) else {
            return self.no_event(alloc, parts);
        };
        let Some(event) = self.events.get_mut(place) else {
            return self.no_event(alloc, parts);
        };
        event.clear();
        Ok(self.answer(Value::nothing()))
    }

    /// Whether the event is set.
    pub fn is_set(&mut self, alloc: Global, number: i64, parts: &Parts) -> Result<Asked, Memory>
        requires room { key_at sync_part self.old.keys.drawn < no_key }
        ensures { IfOk result (λ asked. SaysSeen (kept_of self.new) parts.now parts.now asked
            (on_event events.is_set number (parts_of parts.now) (kept_of self.old))) }
    {
        let Some(place) = place_in(number) else {
            return self.no_event(alloc, parts);
        };
        let Some(event) = self.events.get(place) else {
            return self.no_event(alloc, parts);
        };
        let set = event.is_set();
        Ok(self.answer(Value::bool(set)))
    }

    /// The task goes on where the event is set, or waits for it.
    pub fn wait(&mut self, alloc: Global, number: i64, parts: &mut Parts) -> Result<Asked, Memory>
        requires idle { parts.old.called ≡ None }
        requires free { are_free parts.old.futures (own_of self.old) ≡ true }
        requires room { key_at sync_part self.old.keys.drawn < no_key }
        ensures { IfOk result (λ asked. SaysSeen (kept_of self.new) parts.old parts.new asked
            (on_event events.wait number (parts_of parts.old) (kept_of self.old))) }
    {
        let Some(place) = place_in(number) else {
            return self.no_event(alloc, parts);
        };
        let Some(event) = self.events.get_mut(place) else {
            return self.no_event(alloc, parts);
        };
        match event.see(alloc, parts)? {
            None => Ok(self.answer(Value::bool(true))),
            Some(on) => self.wait_on(Waiting::Awaits { event: place, on }, on),
        }
    }

    // ---- queues
    fn no_queue(&mut self, alloc: Global, parts: &Parts) -> Result<Asked, Memory>
        requires room { key_at sync_part self.old.keys.drawn < no_key }
        ensures { IfOk result (λ asked. SaysSeen (kept_of self.new) parts.now parts.now asked
            (raises queues.no_queue (kept_of self.old))) }
    {
        self.raise(alloc, Kind::ValueError, "no such queue")
    }

    /// A new queue's number; it holds at most so many values.
    pub fn make_queue(&mut self, alloc: Global, size: i64, parts: &Parts) -> Result<Asked, Memory>
        requires room { key_at sync_part self.old.keys.drawn < no_key }
        ensures { IfOk result (λ asked. SaysSeen (kept_of self.new) parts.now parts.now asked
            (queues.make_queue size (kept_of self.old))) }
    {
        let number = self.queues.len();
        self.queues.push(Queue::new(alloc, size))?;
        Ok(self.answer(number_of(number)))
    }

    /// The value comes last in the queue, or the task waits for room.
    pub fn put(
        &mut self,
        alloc: Global,
        number: i64,
        value: Value,
        parts: &mut Parts,
    ) -> Result<Asked, Memory>
        requires idle { parts.old.called ≡ None }
        requires free { are_free parts.old.futures (own_of self.old) ≡ true }
        requires room { key_at sync_part self.old.keys.drawn < no_key }
        ensures { IfOk result (λ asked. SaysSeen (kept_of self.new) parts.old parts.new asked
            (on_queue (queues.put value) number (parts_of parts.old) (kept_of self.old))) }
    {
        let Some(place) = place_in(number) else {
            forget(value);
            return self.no_queue(alloc, parts);
        };
        let Some(queue) = self.queues.get_mut(place) else {
            forget(value);
            return self.no_queue(alloc, parts);
        };
        if queue.is_full() {
            let on = match queue.wait_to_put(alloc, parts) {
                Ok(on) => on,
                Err(refused) => {
                    forget(value);
                    return Err(refused);
                }
            };
            let it = Waiting::Puts {
                queue: place,
                value,
                on,
            };
            return self.wait_on(it, on);
        }
        queue.put(value, parts)?;
        Ok(self.answer(Value::nothing()))
    }

    /// The first value of the queue, or the task waits for one.
    pub fn get(&mut self, alloc: Global, number: i64, parts: &mut Parts) -> Result<Asked, Memory>
        requires idle { parts.old.called ≡ None }
        requires free { are_free parts.old.futures (own_of self.old) ≡ true }
        requires room { key_at sync_part self.old.keys.drawn < no_key }
        ensures { IfOk result (λ asked. SaysSeen (kept_of self.new) parts.old parts.new asked
            (on_queue queues.get number (parts_of parts.old) (kept_of self.old))) }
    {
        let Some(place) = place_in(number) else {
            return self.no_queue(alloc, parts);
        };
        let Some(queue) = self.queues.get_mut(place) else {
            return self.no_queue(alloc, parts);
        };
        match queue.get(alloc, parts)? {
            Got::Value(value) => Ok(self.answer(value)),
            Got::Waits(on) => self.wait_on(Waiting::Gets { queue: place, on }, on),
        }
    }

    /// How many values the queue holds.
    pub fn size(&mut self, alloc: Global, number: i64, parts: &Parts) -> Result<Asked, Memory>
        requires room { key_at sync_part self.old.keys.drawn < no_key }
        ensures { IfOk result (λ asked. SaysSeen (kept_of self.new) parts.now parts.now asked
            (on_queue queues.size number (parts_of parts.now) (kept_of self.old))) }
    {
        let Some(place) = place_in(number) else {
            return self.no_queue(alloc, parts);
        };
        let Some(queue) = self.queues.get(place) else {
            return self.no_queue(alloc, parts);
        };
        let size = queue.len();
        Ok(self.answer(number_of(size)))
    }
}

fn forget(_value: Value) {}
