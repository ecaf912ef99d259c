//! The wire.
ghost use Rattle.std.specs.Prelude.{◌≡◌, ◌≤◌, true, false, IfOk};
ghost use Rattle.model_wire.specs.Told.{Going};
ghost use Rattle.model_wire.specs.declared.call.Call.TheVariants as asked;
ghost use Rattle.aio_wire.specs.Replied.{FitsCall, EndsAs};
ghost use Rattle.aio_simwire.specs.Seen.{TurnAt, Speaks, end_of};

use crate::outside::Outside;
use crate::spare::{MOST_TIME, fitted, fitted_turn};
use aio_base::Memory;
use aio_simnet::{Chance, Rates};
use aio_wire::{Call, Reply, WatchList, Wire};
use std::alloc::Global;
use std::marker::Model;

/// A wire over an outside that is made up. Where a select waits without a bound and nothing will ever come, no answer is left,
/// from then on. It never fails. Contracts see its time, in milliseconds, and whether an answer is left.
#[derive(Drop)]
pub struct SimWire {
    outside: Outside,
    time: u64,
    turns: u64,
    is_over: bool,
}

impl Model for SimWire {
    ghost use Rattle.std.specs.Prelude.{◌≤◌};
    ghost use Rattle.model_value.specs.Number.{most};
    ghost use Rattle.aio_simwire.specs.Seen.{Seen};

    ghost Value = { Seen };

    ghost view = { λ wire. record { time = wire.time; is_over = wire.is_over } };

    ghost invariant = { λ wire. wire.time ≤ most };
}

impl SimWire {
    /// Nothing was asked, and it is the time 0.
    pub fn new(alloc: Global, chance: Chance, rates: Rates) -> SimWire
        ensures time { result.time ≡ 0 }
        ensures over { result.is_over ≡ false }
    {
        SimWire {
            outside: Outside::new(alloc, chance, rates),
            time: 0,
            turns: 0,
            is_over: false,
        }
    }

    /// The time of the last turn, in milliseconds.
    pub fn time(&self) -> u64
        ensures { result ≡ self.now.time }
    {
        self.time
    }

    /// How many selects it was asked.
    pub fn turns(&self) -> u64 {
        self.turns
    }

    /// Answers a call. Its time never goes back, and is that of each turn that it answers. Once no answer is left, none is.
    pub fn reply(&mut self, alloc: Global, call: &Call) -> Result<Reply, Memory>
        ensures fits { IfOk result (FitsCall true call.now) }
        ensures time { self.old.time ≤ self.new.time }
        ensures turn { IfOk result (TurnAt self.new.time call.now) }
        ensures ends { IfOk result (EndsAs (end_of self.new.is_over)) }
        ensures speaks { IfOk result Speaks }
        ensures stays { self.old.is_over ≡ true → self.new ≡ self.old }
        ensures over { self.old.is_over ≡ true → result ≡ Ok Reply.Over }
    {
        if self.is_over {
            return Ok(Reply::Over);
        }
        match call {
            Call::Select { wait, watch } => self.select(alloc, *wait, watch),
            Call::Listen(_)
            | Call::Accept(_)
            | Call::Connect(_)
            | Call::Recv(_)
            | Call::Send { .. }
            | Call::Shut(_)
            | Call::Close(_)
            | Call::CloseServer(_)
            | Call::Launch(_)
            | Call::Feed { .. }
            | Call::End(_)
            | Call::Kill(_)
            | Call::Extra { .. } => self.answer(alloc, call),
        }
    }

    /// Answers a call that is no select.
    fn answer(&mut self, alloc: Global, call: &Call) -> Result<Reply, Memory>
        ensures fits { IfOk result (FitsCall true call.now) }
        ensures same { self.new ≡ self.old }
        ensures ends { IfOk result (EndsAs Going) }
        ensures speaks { IfOk result Speaks }
    {
        let answer = self.outside.answer(alloc, self.time, call)?;
        Ok(Reply::Got(fitted(alloc, call, answer)?))
    }

    /// Answers a select.
    fn select(
        &mut self,
        alloc: Global,
        wait: Option<u64>,
        watch: &WatchList,
    ) -> Result<Reply, Memory>
        ensures fits { IfOk result (FitsCall true (asked.Select wait watch.now)) }
        ensures time { self.old.time ≤ self.new.time }
        ensures turn { IfOk result (TurnAt self.new.time (asked.Select wait watch.now)) }
        ensures ends { IfOk result (EndsAs (end_of self.new.is_over)) }
        ensures speaks { IfOk result Speaks }
    {
        self.turns = self.turns.saturating_add(1);
        let Some(at) = self.outside.wake(self.time, wait, watch.items()) else {
            self.is_over = true;
            return Ok(Reply::Over);
        };
        self.time = at.min(MOST_TIME).max(self.time);
        let items = self.outside.gather(alloc, self.time, watch.items())?;
        Ok(Reply::Got(fitted_turn(alloc, watch, self.time, items)?))
    }
}

impl Wire for SimWire {
    ghost use Rattle.aio_simwire.specs.Seen.{sim_seen, sim_end_agrees};

    ghost outside = { record {
      seen = λ wire. sim_seen wire.is_over;
      fails = λ _. ⊥;
      keeps = λ _ _. Unit {0};
      quiet = λ _ _. Unit {0};
      end_agrees = λ wire. sim_end_agrees wire.is_over;
      keeps_same = λ _. tt;
      keeps_on = λ _ _ _ _ _. tt;
      quiet_same = λ _. tt;
      quiet_on = λ _ _ _ _ _. tt;
    } };

    fn ask(&mut self, alloc: Global, call: &Call) -> Result<Reply, Memory> {
        self.reply(alloc, call)
    }
}
