//! A wire over a hub.
ghost use Rattle.std.specs.Prelude.{ℕ, Option, IfOk};
ghost use Rattle.model_wire.specs.declared.call.Call.TheVariants as asked;
ghost use Rattle.aio_wire.specs.Replied.{Replied, Stays};
ghost use Rattle.aio_outside.specs.Untold.{untold};

use crate::eager::{is_full_turn, wait_after};
use crate::finder::Finder;
use aio_base::Memory;
use aio_wire::{Answer, Call, Reply, WatchList, Wire, WordList};
use std::alloc::Global;

/// A wire that asks another one. A launch of a program that isn't there is refused, and not asked. Where a turn was full the
/// next select doesn't wait: a hub that stopped for want of room has posts in its inbox whose rings are over. So it tells
/// nothing of what the other is asked.
#[derive(Drop)]
pub struct Outside<W, F> {
    wire: W,
    finder: F,
    full: bool,
}

impl<W, F> Outside<W, F> {
    /// Over this wire, of which nothing was asked.
    pub fn over(wire: W, finder: F) -> Outside<W, F> {
        Outside {
            wire,
            finder,
            full: false,
        }
    }

    /// The other wire.
    pub fn into_inner(self) -> W
    where
        F: Drop,
    {
        let Outside {
            wire,
            finder: _finder,
            full: _,
        } = self;
        wire
    }
}

impl<W: Wire, F: Finder> Wire for Outside<W, F> {
    ghost use Rattle.aio_outside.specs.Untold.{untold, untold_end};

    ghost outside = { record {
      seen = λ it. untold (W.outside.seen it.wire);
      fails = λ _. ⊥;
      keeps = λ _ _. Unit {0};
      quiet = λ _ _. Unit {0};
      end_agrees = λ it. untold_end (W.outside.seen it.wire).end;
      keeps_same = λ _. tt;
      keeps_on = λ _ _ _ _ _. tt;
      quiet_same = λ _. tt;
      quiet_on = λ _ _ _ _ _. tt;
    } };

    fn ask(&mut self, alloc: Global, call: &Call) -> Result<Reply, Memory> {
        self.ask_any(alloc, call)
    }
}

impl<W: Wire, F: Finder> Outside<W, F> {
    // Asks, unless a program isn't there; a select behind a full turn with a wait of 0.
    #[tactic(auto, using(crate::proofs::Replies::replied_refused, crate::proofs::Replies::same_stays))]
    fn ask_any(&mut self, alloc: Global, call: &Call) -> Result<Reply, Memory>
        ensures replied { IfOk result (Replied call.now (untold (W.outside.seen self.old.wire))
            (untold (W.outside.seen self.new.wire))) }
        ensures stays { Stays (untold (W.outside.seen self.old.wire))
            (untold (W.outside.seen self.new.wire)) }
    {
        match call {
            Call::Select { wait, watch } => self.select(alloc, *wait, watch),
            Call::Launch(words) => {
                if self.is_there(alloc, words) {
                    self.ask_other(alloc, call)
                } else {
                    Ok(Reply::Got(Answer::Refused))
                }
            }
            Call::Listen(_)
            | Call::Accept(_)
            | Call::Connect(_)
            | Call::Recv(_)
            | Call::Send { .. }
            | Call::Shut(_)
            | Call::Close(_)
            | Call::CloseServer(_)
            | Call::Feed { .. }
            | Call::End(_)
            | Call::Kill(_)
            | Call::Extra { .. } => self.ask_other(alloc, call),
        }
    }

    // Whether the program that these words begin with may be there.
    fn is_there(&self, alloc: Global, words: &WordList) -> bool {
        match words.items().first() {
            Some(program) => self.finder.is_there(alloc, program.as_str()),
            None => false,
        }
    }

    // Asks this very call.
    #[tactic(auto, using(crate::proofs::Replies::if_replied))]
    fn ask_other(&mut self, alloc: Global, call: &Call) -> Result<Reply, Memory>
        ensures replied { IfOk result (Replied call.now (untold (W.outside.seen self.old.wire))
            (untold (W.outside.seen self.new.wire))) }
        ensures stays { Stays (untold (W.outside.seen self.old.wire))
            (untold (W.outside.seen self.new.wire)) }
    {
        self.wire.ask(alloc, call)
    }

    // Asks a select with another wait.
    #[tactic(auto, using(crate::proofs::Replies::if_selected))]
    fn select_for(
        &mut self,
        alloc: Global,
        wait: Option<u64>,
        watch: WatchList,
    ) -> Result<Reply, Memory>
        ensures replied { (other : Option ℕ) → IfOk result (Replied (asked.Select other watch)
            (untold (W.outside.seen self.old.wire)) (untold (W.outside.seen self.new.wire))) }
        ensures stays { Stays (untold (W.outside.seen self.old.wire))
            (untold (W.outside.seen self.new.wire)) }
    {
        self.wire.ask(alloc, &Call::Select { wait, watch })
    }

    // A select, that doesn't wait where the turn before it was full.
    #[tactic(auto, using(crate::proofs::Replies::same_stays))]
    fn select(
        &mut self,
        alloc: Global,
        wait: Option<u64>,
        watch: &WatchList,
    ) -> Result<Reply, Memory>
        ensures replied { IfOk result (Replied (asked.Select wait watch.now)
            (untold (W.outside.seen self.old.wire)) (untold (W.outside.seen self.new.wire))) }
        ensures stays { Stays (untold (W.outside.seen self.old.wire))
            (untold (W.outside.seen self.new.wire)) }
    {
        let own = WatchList::of(Vec::from_slice(alloc, watch.items())?);
        let reply = self.select_for(alloc, wait_after(self.full, wait), own)?;
        self.full = is_full_turn(&reply);
        Ok(reply)
    }
}
