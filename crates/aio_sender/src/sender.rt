//! A sender.
ghost use Rattle.std.specs.Prelude.{◌≡◌, ◌≤◌, ◌++◌, [], ◌∷◌, ℕ, None, IfOk, IfSome, OnOk, OnErr, Some, length};
ghost use Rattle.model_wire.specs.declared.answer.Answer.TheVariants as answer_as;
ghost use Rattle.model_stream.specs.declared.phase.Phase.TheVariants as phase_as;
ghost use Rattle.model_stream.specs.Doing.{Ends};
ghost use Rattle.model_stream.specs.Senders as plain;
ghost use Rattle.model_stream.specs.Sending as sending;
ghost use Rattle.aio_exchange.specs.Tells.{Tells};
ghost use Rattle.aio_exchange.specs.Ways.{changed_on};
ghost use Rattle.law_over.specs.Gone.{is_spent};
ghost use Rattle.law_stream.specs.SoundSenders.{outlet_of};
ghost use Rattle.aio_change.specs.Owned.{AreOwn, IsOwn, settled_way};
ghost use Rattle.aio_change.specs.Seen.{seen_changed};
ghost use Rattle.aio_sender.specs.Lost.{sender_of};
ghost use Rattle.aio_sender.specs.Owned.{OwnsSender};

mod asking;
mod requests;

use crate::lost::LostSender;
use crate::outlet::{loses, sends};
use crate::sent::{Sent, sent_by};
use aio_base::{Blob, Exc, Memory, Outcome};
use aio_change::{call_soon, settle_all};
use aio_flow::{Flow, Limited, Put};
use aio_task::{FutureId, Parts};
use aio_wire::{Answer, Call};
use model_stream::Phase;
use model_wire::Handed;
use std::alloc::Global;
use std::marker::Model;

/// What a drain does next.
pub type Drain = model_stream::Drain<Exc>;

/// A writer with those who wait for it. Contracts see it as the definitions' `Sender`.
/// Source: `selector_events.py`, `_SelectorTransport`; `unix_events.py`, `_UnixWritePipeTransport`; `streams.py`,
/// FlowControlMixin.
#[derive(Drop)]
pub struct Sender {
    flow: Flow,
    // the futures that drains wait on, in order
    drains: Vec<FutureId>,
    phase: Phase,
    // the one that `wait_closed` awaits
    closed: FutureId,
}

impl Model for Sender {
    ghost use Rattle.model_stream.specs.Senders as definitions;

    ghost Value = { definitions.Sender };

    ghost view = { λ s. record {
      writer = s.flow;
      drains = s.drains.items;
      phase = s.phase;
      closed_future = s.closed;
    } };
}

impl Sender {
    /// Nothing was written, and nobody waits. `whole` is true for a child's standard input.
    pub fn new(alloc: Global, whole: bool, closed: FutureId) -> Sender
        ensures { result ≡ plain.new_sender whole closed }
    {
        Sender {
            flow: Flow::new(alloc, whole),
            drains: Vec::new(alloc),
            phase: Phase::Open,
            closed,
        }
    }

    /// The same in few bytes, where its loss is done and nobody drains.
    #[tactic(auto, using(std::proofs::lemmas::List::nil_from_length))]
    pub fn lost(&self) -> Option<LostSender>
        ensures { IfSome result (λ lost. sender_of lost ≡ self.now) }
    {
        let Phase::Lost { broken } = self.phase else {
            return None;
        };
        if self.drains.len() != 0 {
            return None;
        }
        match self.flow.spent() {
            Some(flow) => Some(LostSender {
                flow,
                broken,
                closed: self.closed,
            }),
            None => None,
        }
    }

    /// The sender that was lost; takes no memory.
    pub fn of_lost(alloc: Global, lost: LostSender) -> Sender
        ensures { result ≡ sender_of lost }
    {
        Sender {
            flow: Flow::of_spent(alloc, lost.flow),
            drains: Vec::new(alloc),
            phase: Phase::Lost {
                broken: lost.broken,
            },
            closed: lost.closed,
        }
    }

    /// The future that `wait_closed` awaits.
    pub fn closed(&self) -> FutureId
        ensures { result ≡ self.now.closed_future }
    {
        self.closed
    }

    /// How far its end has come.
    pub fn phase(&self) -> Phase
        ensures { result ≡ self.now.phase }
    {
        self.phase
    }

    /// Whether it is closed or lost, or about to be.
    pub fn is_closing(&self) -> bool
        ensures { result ≡ plain.is_closing self.now }
    {
        match self.phase {
            Phase::Open => false,
            Phase::Closing => true,
            Phase::Losing { broken: _ } => true,
            Phase::Lost { broken: _ } => true,
        }
    }

    /// Whether its loss is done.
    pub fn is_lost(&self) -> bool
        ensures { result ≡ plain.is_lost self.now }
    {
        match self.phase {
            Phase::Open => false,
            Phase::Closing => false,
            Phase::Losing { broken: _ } => false,
            Phase::Lost { broken: _ } => true,
        }
    }

    /// Whether something is unsent.
    pub fn has_unsent(&self) -> bool
        ensures { result ≡ plain.has_unsent self.now }
    {
        self.flow.unsent() > 0
    }

    /// Whether all was sent, and nothing failed.
    pub fn is_flushed(&self) -> bool
        ensures { result ≡ plain.is_flushed self.now }
    {
        !self.has_unsent() && !self.ended()
    }

    /// Whether loss is scheduled or done.
    pub fn ended(&self) -> bool
        ensures { result ≡ self.now.writer.ended }
    {
        self.flow.ended()
    }

    /// Whether its loss is done, and nothing is left to send: then nothing is sent any more.
    pub fn is_spent(&self) -> bool
        ensures { result ≡ is_spent self.now }
    {
        self.is_lost() && self.ended() && !self.has_unsent()
    }

    /// Whether the end was written.
    pub fn eof(&self) -> bool
        ensures { result ≡ self.now.writer.eof }
    {
        self.flow.eof()
    }

    /// Whether writing is paused.
    pub fn paused(&self) -> bool
        ensures { result ≡ self.now.writer.paused }
    {
        self.flow.paused()
    }

    /// The end is written: no further write is taken.
    pub fn set_eof(&mut self)
        ensures { self.new ≡ plain.with_writer (sending.set_eof self.old.writer) self.old }
    {
        self.flow.set_eof();
    }

    /// What is unsent is dropped, and so is what is written from now on; its end has come so far.
    pub fn end_as(&mut self, phase: Phase)
        ensures { self.new ≡ plain.ended_sender phase self.old }
    {
        self.flow.set_ended();
        self.phase = phase;
    }

    // It closes once all was sent.
    fn begin_closing(&mut self)
        ensures { self.new ≡ record self.old { phase = phase_as.Closing } }
    {
        self.phase = Phase::Closing;
    }

    // A piece is written to the writer.
    fn put(&mut self, alloc: Global, piece: &[u8]) -> Result<Put, Memory>
        ensures answer { IfOk result
            (λ answer. answer ≡ sending.put_answer piece.now self.old.writer) }
        ensures after { OnOk result
            (self.new ≡ plain.with_writer (sending.put piece.now self.old.writer) self.old) }
    {
        self.flow.put(alloc, piece)
    }

    // The call that offers the first unsent bytes.
    fn offer(&self, alloc: Global, whom: Handed) -> Result<Call, Memory>
        ensures { IfOk result
            (λ call. call ≡ (outlet_of whom).sends (sending.offer self.now.writer)) }
    {
        let bytes = Blob::of(self.flow.offer(alloc)?);
        Ok(sends(whom, bytes))
    }

    // So many of the bytes that were offered were sent.
    fn took(&mut self, count: usize)
        requires { count ≤ length (sending.offer self.old.writer) }
        ensures { self.new ≡ plain.with_writer (sending.took count self.old.writer) self.old }
    {
        self.flow.took(count);
    }

    // The marks.
    fn set_limits(&mut self, high: Option<i64>, low: Option<i64>) -> Limited
        ensures answer { result ≡ sending.limits_answer high low }
        ensures after { self.new
            ≡ plain.with_writer (sending.limits high low self.old.writer) self.old }
    {
        self.flow.limits(high, low)
    }

    // One more who drains.
    fn push_drain(&mut self, future: FutureId) -> Result<(), Memory>
        ensures { OnOk result
            (self.new ≡ record self.old { drains = self.old.drains ++ future ∷ [] }) }
    {
        self.drains.push(future)?;
        Ok(())
    }

    // Nobody drains any more.
    fn clear_drains(&mut self)
        ensures { self.new ≡ record self.old { drains = [] } }
    {
        self.drains.clear();
    }

    // Those who drain go on or raise.
    fn settle_drains(&self, outcome: &Outcome, parts: &mut Parts) -> Result<(), Memory>
        requires idle { parts.old.called ≡ None }
        requires own { AreOwn parts.old self.now.drains }
        ensures after { OnOk result (parts.new
            ≡ changed_on seen_changed (settled_way outcome.now self.now.drains) parts.old) }
        ensures idle { parts.new.called ≡ None }
    {
        settle_all(&self.drains, outcome, parts)
    }

    // Those who await its loss go on or raise.
    fn settle_closed(&self, outcome: &Outcome, parts: &mut Parts) -> Result<(), Memory>
        requires idle { parts.old.called ≡ None }
        requires own { IsOwn parts.old self.now.closed_future }
        ensures after { OnOk result (parts.new
            ≡ changed_on seen_changed (settled_way outcome.now (self.now.closed_future ∷ []))
            parts.old) }
        ensures idle { parts.new.called ≡ None }
    {
        settle_all(&[self.closed], outcome, parts)
    }
}
