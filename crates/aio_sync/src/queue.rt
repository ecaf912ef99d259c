//! One queue.
ghost use Rattle.std.specs.Prelude.{◌≡◌, ◌<◌, ◌^◌, ◌++◌, ◌∷◌, ◌&&◌, [], ℕ, None, Some, true, false, not, IfOk, OnOk, length, nat_lt};
ghost use Rattle.model_value.specs.Value.{Value as AnyValue};
ghost use Rattle.model_loop.specs.Futures.{future_outcome};
ghost use Rattle.model_loop.specs.Parts as plain;
ghost use Rattle.model_sync.specs.Synced.{without};
ghost use Rattle.model_sync.specs.Queues.{get_from, got_value as plain_got_value, is_full, next_if, wake_next};
ghost use Rattle.aio_task.specs.Keeps.{Known};
ghost use Rattle.aio_task.specs.View.{parts as parts_of};
ghost use Rattle.refine_added.specs.Seen.{SeesAll, made};
ghost use Rattle.aio_sync.specs.Tried.{Tries};
ghost use Rattle.aio_sync.specs.Got.{on_of_got, value_of_got};
ghost use Rattle.aio_sync.specs.Woken.{are_free};

use crate::waiters::Waiters;
use aio_base::{Memory, Outcome, Value};
use aio_task::{FutureId, Parts};
use std::alloc::Global;
use std::collections::VecDeque;
use std::marker::Model;

/// What comes of a try to get a value: it, or what is waited on.
#[derive(Drop)]
pub enum Got {
    Value(Value),
    Waits(FutureId),
}

/// At most how many values, the values, and who waits to get one or to put one. A size at most 0 is
/// no limit. Contracts see it as the definitions have it.
#[derive(Drop)]
pub struct Queue {
    size: i64,
    values: VecDeque<Value>,
    getters: Waiters,
    putters: Waiters,
}

impl Model for Queue {
    ghost use Rattle.std.specs.Prelude.{◌<◌, ◌^◌, length};
    ghost use Rattle.model_sync.specs.Synced.{Queue as PlainQueue};
    ghost use Rattle.aio_sync.specs.Code.{coded_queue};

    ghost Value = { PlainQueue };

    ghost coded = { coded_queue };

    ghost view = { λ a. record {
      size = a.size;
      values = a.values.items;
      getters = a.getters;
      putters = a.putters;
    } };

    ghost invariant = { λ a. length a.values.items < 2 ^ 63 };
}

// So many values a queue holds at most, whatever its size.
const MOST: usize = 9_223_372_036_854_775_807;

fn forget(_value: Value) {}

fn got_value(waiter: FutureId, parts: &Parts) -> bool
    ensures { result ≡ plain_got_value (future_outcome (parts_of parts.now) waiter) }
{
    match parts.outcome(waiter) {
        Some(Outcome::Value(_)) => true,
        Some(Outcome::Failed(_)) => false,
        Some(Outcome::Cancelled) => false,
        None => false,
    }
}

impl Queue {
    /// No values, and nobody waits.
    pub fn new(alloc: Global, size: i64) -> Queue
        ensures { result ≡ record { size = size; values = []; getters = []; putters = [] } }
    {
        Queue {
            size,
            values: VecDeque::new(alloc),
            getters: Waiters::new(alloc),
            putters: Waiters::new(alloc),
        }
    }

    /// How many values it holds. It takes no memory.
    pub fn len(&self) -> usize
        ensures len { result ≡ length self.now.values }
        ensures small { result < 2 ^ 63 }
    {
        self.values.len()
    }

    /// Whether it holds none.
    pub fn is_empty(&self) -> bool
        ensures { result ≡ not (nat_lt 0 (length self.now.values)) }
    {
        self.values.len() == 0
    }

    /// Whether it holds as many as it may.
    pub fn is_full(&self) -> bool
        ensures { result ≡ is_full self.now }
    {
        self.size > 0 && self.values.len() as u64 >= self.size as u64
    }

    /// A value comes last, and the next getter is woken.
    pub fn put(&mut self, value: Value, parts: &mut Parts) -> Result<(), Memory>
        requires idle { parts.old.called ≡ None }
        requires free { are_free parts.old.futures self.old.getters ≡ true }
        ensures after { OnOk result (self.new ≡ record self.old {
          values = self.old.values ++ value ∷ [];
          getters = (wake_next (parts_of parts.old) self.old.getters).left;
        }) }
        ensures steps { OnOk result ((known : ℕ → Known) → SeesAll known
            (wake_next (parts_of parts.old) self.old.getters).steps parts.old parts.new) }
    {
        if self.values.len() >= MOST {
            forget(value);
            return Err(Memory);
        }
        self.values.push_back(value)?;
        self.getters.wake_next(parts);
        Ok(())
    }

    /// Waits until there is room: what is waited on.
    pub fn wait_to_put(&mut self, alloc: Global, parts: &mut Parts) -> Result<FutureId, Memory>
        requires idle { parts.old.called ≡ None }
        requires free { are_free parts.old.futures self.old.putters ≡ true }
        ensures on { IfOk result (λ on. on ≡ length parts.old.futures) }
        ensures after { OnOk result (self.new ≡ record self.old {
          putters = self.old.putters ++ length parts.old.futures ∷ [];
        }) }
        ensures parts { OnOk result (parts.new ≡ made plain.Plain parts.old) }
    {
        self.putters.wait(alloc, parts)
    }

    /// Takes the first value and wakes the next putter, or waits for one.
    pub fn get(&mut self, alloc: Global, parts: &mut Parts) -> Result<Got, Memory>
        requires idle { parts.old.called ≡ None }
        requires getters { are_free parts.old.futures self.old.getters ≡ true }
        requires putters { are_free parts.old.futures self.old.putters ≡ true }
        ensures { IfOk result (λ got. Tries self.new parts.old parts.new (on_of_got got)
            (value_of_got got) (get_from (parts_of parts.old) self.old)) }
    {
        match self.values.pop_front() {
            Some(value) => {
                self.putters.wake_next(parts);
                Ok(Got::Value(value))
            }
            None => Ok(Got::Waits(self.getters.wait(alloc, parts)?)),
        }
    }

    /// A getter gives up. If it had been woken and a value is there, the next is. It takes no
    /// memory.
    pub fn leave_getters(&mut self, on: FutureId, parts: &mut Parts)
        requires idle { parts.old.called ≡ None }
        requires free { are_free parts.old.futures self.old.getters ≡ true }
        ensures after { self.new ≡ record self.old {
          getters = (next_if (plain_got_value (future_outcome (parts_of parts.old) on)
              && nat_lt 0 (length self.old.values)) (parts_of parts.old)
              (without on self.old.getters)).left;
        } }
        ensures steps { (known : ℕ → Known) → SeesAll known
            (next_if (plain_got_value (future_outcome (parts_of parts.old) on)
            && nat_lt 0 (length self.old.values)) (parts_of parts.old)
            (without on self.old.getters)).steps parts.old parts.new }
    {
        self.getters.leave(on);
        if got_value(on, parts) && !self.is_empty() {
            self.getters.wake_next(parts);
        }
    }

    /// A putter gives up. If it had been woken and there is room, the next is. It takes no memory.
    pub fn leave_putters(&mut self, on: FutureId, parts: &mut Parts)
        requires idle { parts.old.called ≡ None }
        requires free { are_free parts.old.futures self.old.putters ≡ true }
        ensures after { self.new ≡ record self.old {
          putters = (next_if (plain_got_value (future_outcome (parts_of parts.old) on)
              && not (is_full self.old)) (parts_of parts.old)
              (without on self.old.putters)).left;
        } }
        ensures steps { (known : ℕ → Known) → SeesAll known
            (next_if (plain_got_value (future_outcome (parts_of parts.old) on)
            && not (is_full self.old)) (parts_of parts.old)
            (without on self.old.putters)).steps parts.old parts.new }
    {
        self.putters.leave(on);
        if got_value(on, parts) && !self.is_full() {
            self.putters.wake_next(parts);
        }
    }
}
