//! A poller in memory.
ghost use Rattle.std.specs.Prelude.{◌≡◌, ◌≤◌, [], true, IfOk, OnOk};
ghost use Rattle.model_wire.specs.Fits.{fits};
ghost use Rattle.aio_hub.specs.InMemory.{plan_of, answer_from, left_after, spare_answer, Answers};
ghost use Rattle.aio_hub.specs.MemPolls.{AnswersPoll, AnswersNet};

use crate::plan::CallPlan;
use crate::poller::{Polled, Poller};
use aio_base::Memory;
use aio_wire::{Answer, Call, ItemList, Reply, WatchList, copy_of_answer, copy_of_call, fits};
use std::alloc::Global;
use std::marker::Model;

/// A poller that gives these answers in order, each to a call that it fits, and of which the calls
/// with the listed numbers fail, counted from 1 over polls and calls on sockets. Where the next answer
/// doesn't fit, or none is left, it gives one that says of nothing that it came: an empty turn at the
/// time 0, `again`, `refused` or `done`. It tells what it was asked and what it gave.
#[derive(Drop)]
pub struct MemPoller {
    answers: Vec<Answer>,
    next: usize,
    plan: CallPlan,
    asked: Vec<Call>,
    given: Vec<Answer>,
}

impl Model for MemPoller {
    ghost use Rattle.std.specs.Prelude.{drop};
    ghost use Rattle.aio_hub.specs.InMemory.{PollerState};

    ghost Value = { PollerState };

    ghost view = { λ poller. record {
      left = drop poller.next poller.answers.items;
      plan = poller.plan;
      asked = poller.asked.items;
      given = poller.given.items;
    } };
}

impl MemPoller {
    /// It keeps the allocator for what it tells.
    pub fn new(alloc: Global, answers: Vec<Answer>, failing: Vec<u64>) -> MemPoller
        ensures { result ≡ record {
          left = answers.items;
          plan = plan_of failing.items;
          asked = [];
          given = [];
        } }
    {
        MemPoller {
            answers,
            next: 0,
            plan: CallPlan::new(failing),
            asked: Vec::new(alloc),
            given: Vec::new(alloc),
        }
    }

    // The next answer where it fits, and else one that says of nothing that it came.
    fn next_answer(&mut self, alloc: Global, call: &Call) -> Result<Answer, Memory>
        ensures answer { IfOk result (λ answer. answer ≡ answer_from self.old.left call.now) }
        ensures left { OnOk result (self.new
            ≡ record self.old { left = left_after self.old.left call.now }) }
        ensures fits { IfOk result (λ answer. fits call.now answer ≡ true) }
        ensures plan { self.new.plan ≡ self.old.plan }
    {
        let Some(next) = self.answers.get(self.next) else {
            return Ok(spare_answer(alloc, call));
        };
        if !fits(alloc, call, next)? {
            return Ok(spare_answer(alloc, call));
        }
        let answer = copy_of_answer(alloc, next)?;
        self.next += 1;
        Ok(answer)
    }

    // What it answers to a call; nothing where that fails.
    fn answer(&mut self, alloc: Global, call: Call) -> Result<Option<Answer>, Memory>
        ensures answers { IfOk result (λ answer. Answers call self.old answer self.new) }
        ensures monotone { self.old.plan.faults ≤ self.new.plan.faults }
    {
        if self.plan.fails() {
            self.asked.push(call)?;
            return Ok(None);
        }
        let answer = self.next_answer(alloc, &call)?;
        self.given.push(copy_of_answer(alloc, &answer)?)?;
        self.asked.push(call)?;
        Ok(Some(answer))
    }
}

// An answer that says of nothing that it came.
fn spare_answer(alloc: Global, call: &Call) -> Answer
    ensures is { result ≡ spare_answer call.now }
    ensures fits { fits call.now result ≡ true }
{
    match call {
        Call::Select { .. } => Answer::Turn {
            now: 0,
            items: ItemList::of(Vec::new(alloc)),
        },
        Call::Listen(_) | Call::Connect(_) | Call::Launch(_) | Call::Extra { .. } => {
            Answer::Refused
        }
        Call::Accept(_) | Call::Recv(_) | Call::Send { .. } | Call::Feed { .. } => Answer::Again,
        Call::Shut(_) | Call::Close(_) | Call::CloseServer(_) | Call::End(_) | Call::Kill(_) => {
            Answer::Done
        }
    }
}

impl Poller for MemPoller {
    ghost use Rattle.std.specs.Prelude.{Some};

    ghost seen = { λ poller. record { asked = Some poller.asked; answers = Some poller.given; faults = poller.plan.faults } };

    fn poll(
        &mut self,
        alloc: Global,
        wait: Option<u64>,
        watch: &WatchList,
    ) -> Result<Polled, Memory>
        ensures polled { IfOk result (λ polled. AnswersPoll wait watch.now self.old polled
            self.new) }
        ensures monotone { self.old.plan.faults ≤ self.new.plan.faults }
    {
        let call = Call::Select {
            wait,
            watch: WatchList::of(Vec::from_slice(alloc, watch.items())?),
        };
        match self.answer(alloc, call)? {
            Some(Answer::Turn { now, items }) => Ok(Polled::Ready { now, items }),
            Some(_) => unreachable!(),
            None => Ok(Polled::Failed),
        }
    }

    fn net(&mut self, alloc: Global, call: &Call) -> Result<Reply, Memory>
        ensures net { IfOk result (λ reply. AnswersNet call.now self.old reply self.new) }
        ensures monotone { self.old.plan.faults ≤ self.new.plan.faults }
    {
        let own = copy_of_call(alloc, call)?;
        match self.answer(alloc, own)? {
            Some(answer) => Ok(Reply::Got(answer)),
            None => Ok(Reply::Failed),
        }
    }
}
