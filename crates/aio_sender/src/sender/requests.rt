//! What asks nothing.
ghost use Rattle.std.specs.Prelude.{◌≡◌, ◌≤◌, ◌∷◌, ◌&&◌, not, ℕ, None, IfOk, OnOk, length};
ghost use Rattle.model_value.specs.declared.outcome.Outcome.TheVariants.{Value as Returned};
ghost use Rattle.model_value.specs.Value.{Nothing};
ghost use Rattle.model_wire.specs.declared.answer.Answer.TheVariants as answer_as;
ghost use Rattle.model_stream.specs.Doing.{Ends};
ghost use Rattle.model_stream.specs.Senders as plain;
ghost use Rattle.model_stream.specs.Sending as sending;
ghost use Rattle.aio_exchange.specs.Tells.{Tells};
ghost use Rattle.aio_exchange.specs.Ways.{changed_on};
ghost use Rattle.law_stream.specs.SoundSenders.{outlet_of};
ghost use Rattle.aio_change.specs.Owned.{settled_way};
ghost use Rattle.aio_change.specs.Seen.{seen_changed};
ghost use Rattle.aio_sender.specs.Owned.{OwnsSender};

use super::{Drain, Sender};
use crate::outlet::{LOST_TEXT, loses};
use crate::sent::{Sent, sent_by};
use aio_base::{Kind, Memory, Outcome, Value, exception};
use aio_change::{call_soon, make_future};
use aio_flow::Limited;
use aio_task::Parts;
use aio_wire::Answer;
use model_stream::Phase;
use model_wire::Handed;
use std::alloc::Global;

impl Sender {
    /// Loss is scheduled, whatever came before.
    pub fn schedule_loss(
        &mut self,
        alloc: Global,
        whom: Handed,
        broken: bool,
        parts: &mut Parts,
    ) -> Result<(), Memory>
        requires idle { parts.old.called ≡ None }
        ensures tells { OnOk result (Tells seen_changed
            (plain.schedule_loss (outlet_of whom) broken self.old) parts.old parts.new self.new) }
        ensures own { OnOk result (OwnsSender parts.old self.old → OwnsSender parts.new self.new) }
        ensures idle { parts.new.called ≡ None }
    {
        call_soon(alloc, loses(whom, broken), parts)?;
        self.end_as(Phase::Losing { broken });
        Ok(())
    }

    /// A failure of the outside. Where loss is scheduled or done it does nothing.
    pub fn fail(&mut self, alloc: Global, whom: Handed, parts: &mut Parts) -> Result<(), Memory>
        requires idle { parts.old.called ≡ None }
        ensures tells { OnOk result (Tells seen_changed
            (plain.fail_sender (outlet_of whom) self.old) parts.old parts.new self.new) }
        ensures own { OnOk result (OwnsSender parts.old self.old → OwnsSender parts.new self.new) }
        ensures idle { parts.new.called ≡ None }
    {
        if self.ended() {
            return Ok(());
        }
        self.schedule_loss(alloc, whom, true, parts)
    }

    /// Closing waits for what is unsent; a closing one is closed no more.
    pub fn close(&mut self, alloc: Global, whom: Handed, parts: &mut Parts) -> Result<(), Memory>
        requires idle { parts.old.called ≡ None }
        ensures tells { OnOk result (Tells seen_changed
            (plain.close_sender (outlet_of whom) self.old) parts.old parts.new self.new) }
        ensures own { OnOk result (OwnsSender parts.old self.old → OwnsSender parts.new self.new) }
        ensures idle { parts.new.called ≡ None }
    {
        if self.is_closing() {
            return Ok(());
        }
        if self.has_unsent() {
            self.begin_closing();
            return Ok(());
        }
        self.schedule_loss(alloc, whom, false, parts)
    }

    /// What a drain does next, after the reader's exception. `yielded` says that it comes after the bare `yield`.
    pub fn drain(
        &mut self,
        alloc: Global,
        yielded: bool,
        parts: &mut Parts,
    ) -> Result<Drain, Memory>
        requires idle { parts.old.called ≡ None }
        ensures tells { IfOk result (λ next. Tells seen_changed
            (plain.drain_sender yielded (length parts.old.futures) self.old)
            parts.old parts.new (self.new, next)) }
        ensures own { OnOk result (OwnsSender parts.old self.old → OwnsSender parts.new self.new) }
        ensures idle { parts.new.called ≡ None }
    {
        if self.is_closing() && !yielded {
            return Ok(Drain::Yields);
        }
        if self.is_lost() {
            let fault = exception(alloc, Kind::ConnectionResetError, LOST_TEXT)?;
            return Ok(Drain::Raises(fault));
        }
        if !self.paused() {
            return Ok(Drain::Goes);
        }
        let future = make_future(alloc, parts)?;
        self.push_drain(future)?;
        Ok(Drain::Waits(future))
    }

    /// New marks, unless they are refused.
    pub fn limits(&mut self, high: Option<i64>, low: Option<i64>) -> Limited
        ensures is { plain.limits_sender high low self.old ≡ Ends (self.new, result) }
        ensures frame { self.new ≡ plain.with_writer self.new.writer self.old }
    {
        self.set_limits(high, low)
    }

    // How an offer at a write went.
    pub(super) fn offered(
        &mut self,
        alloc: Global,
        whom: Handed,
        answer: &Answer,
        parts: &mut Parts,
    ) -> Result<(), Memory>
        requires idle { parts.old.called ≡ None }
        requires within { (count : ℕ) → answer.now ≡ answer_as.Took count
            → count ≤ length (sending.offer self.old.writer) }
        ensures tells { OnOk result (Tells seen_changed
            (plain.offered (outlet_of whom) self.old answer.now) parts.old parts.new self.new) }
        ensures own { OnOk result (OwnsSender parts.old self.old → OwnsSender parts.new self.new) }
        ensures idle { parts.new.called ≡ None }
    {
        match sent_by(answer) {
            Sent::Took(count) => {
                self.took(count as usize);
                Ok(())
            }
            Sent::Again => {
                self.took(0);
                Ok(())
            }
            Sent::Gone => self.fail(alloc, whom, parts),
        }
    }

    // How a send of what is unsent went.
    pub(super) fn sent_more(
        &mut self,
        alloc: Global,
        whom: Handed,
        answer: &Answer,
        parts: &mut Parts,
    ) -> Result<(), Memory>
        requires idle { parts.old.called ≡ None }
        requires own { OwnsSender parts.old self.old }
        requires within { (count : ℕ) → answer.now ≡ answer_as.Took count
            → count ≤ length (sending.offer self.old.writer) }
        ensures tells { OnOk result (Tells seen_changed
            (plain.sent_more (outlet_of whom) self.old answer.now) parts.old parts.new self.new) }
        ensures own { OnOk result (OwnsSender parts.new self.new) }
        ensures idle { parts.new.called ≡ None }
    {
        match sent_by(answer) {
            Sent::Took(count) => self.sent(count as usize, parts),
            Sent::Again => Ok(()),
            Sent::Gone => self.fail(alloc, whom, parts),
        }
    }

    // Bytes were sent: where writing resumes, those who drain go on.
    fn sent(&mut self, count: usize, parts: &mut Parts) -> Result<(), Memory>
        requires idle { parts.old.called ≡ None }
        requires own { OwnsSender parts.old self.old }
        requires within { count ≤ length (sending.offer self.old.writer) }
        ensures tells { OnOk result (Tells seen_changed (plain.sent count self.old)
            parts.old parts.new self.new) }
        ensures own { OnOk result (OwnsSender parts.new self.new) }
        ensures idle { parts.new.called ≡ None }
    {
        let paused = self.paused();
        self.took(count);
        let resumes = self.resumes(paused);
        if !resumes {
            return Ok(());
        }
        let nothing = Outcome::Value(Value::nothing());
        let told = self.settle_drains(&nothing, parts);
        forget_outcome(nothing);
        self.clear_drains();
        told
    }

    // Whether writing, which was paused or not, resumes.
    fn resumes(&self, paused: bool) -> bool
        ensures { result ≡ (paused && not self.now.writer.paused) }
    {
        paused && !self.paused()
    }

    // Those who wait are told of the loss, in order.
    pub(super) fn tell_loss(&self, outcome: &Outcome, parts: &mut Parts) -> Result<(), Memory>
        requires idle { parts.old.called ≡ None }
        requires own { OwnsSender parts.old self.now }
        ensures after { OnOk result (parts.new ≡ changed_on seen_changed
            (settled_way outcome.now (plain.waiting_for_loss self.now)) parts.old) }
        ensures own { OnOk result (OwnsSender parts.new self.now) }
        ensures idle { parts.new.called ≡ None }
    {
        self.settle_closed(outcome, parts)?;
        if !self.paused() {
            return Ok(());
        }
        self.settle_drains(outcome, parts)
    }
}

pub(super) fn forget_outcome(_outcome: Outcome) {}
