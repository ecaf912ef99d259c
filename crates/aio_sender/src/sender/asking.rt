//! What asks the outside.
ghost use Rattle.std.specs.Prelude.{◌≡◌, None, OnOk};
ghost use Rattle.model_stream.specs.Senders as plain;
ghost use Rattle.aio_exchange.specs.Follows.{Follows, after_of, reach, with_after};
ghost use Rattle.law_stream.specs.SoundSenders.{outlet_of};
ghost use Rattle.aio_change.specs.Seen.{seen_changed};
ghost use Rattle.aio_sender.specs.Offers.{offers};
ghost use Rattle.aio_sender.specs.Owned.{OwnsSender};

use super::Sender;
use super::requests::forget_outcome;
use crate::outlet::{closes, loss_outcome};
use crate::sent::forget_answer;
use aio_exchange::ask;
use aio_flow::Put;
use aio_task::Parts;
use aio_wire::{Port, Stop, Wire};
use model_stream::{Phase, Wrote};
use model_wire::Handed;
use std::alloc::Global;

impl Sender {
    /// A piece is written. Where nothing was unsent it is offered at once.
    pub fn write<W: Wire>(
        &mut self,
        alloc: Global,
        whom: Handed,
        piece: &[u8],
        port: &mut Port<W>,
        parts: &mut Parts,
    ) -> Result<Wrote, Stop>
        requires idle { parts.old.called ≡ None }
        ensures wire_name { port.new.wire.ghost_name ≡ port.old.wire.ghost_name }
        ensures events_name { port.new.events.ghost_name ≡ port.old.events.ghost_name }
        ensures follows { Follows W.outside seen_changed
            (plain.write (outlet_of whom) piece.now self.old)
            (reach parts.old port.old.wire.now port.old.events.now)
            (reach parts.new port.new.wire.now port.new.events.now)
            (with_after self.new result) }
        ensures own { OnOk result (OwnsSender parts.old self.old → OwnsSender parts.new self.new) }
        ensures idle { parts.new.called ≡ None }
    {
        match self.put(alloc, piece)? {
            Put::AfterEof => Ok(Wrote::AfterEof),
            Put::Offer => {
                self.offer_unsent(alloc, whom, port, parts)?;
                Ok(Wrote::Done)
            }
            Put::Kept => Ok(Wrote::Done),
            Put::Empty => Ok(Wrote::Done),
            Put::Dropped => Ok(Wrote::Done),
        }
    }

    // The first unsent bytes are offered, at a write.
    fn offer_unsent<W: Wire>(
        &mut self,
        alloc: Global,
        whom: Handed,
        port: &mut Port<W>,
        parts: &mut Parts,
    ) -> Result<(), Stop>
        requires idle { parts.old.called ≡ None }
        ensures wire_name { port.new.wire.ghost_name ≡ port.old.wire.ghost_name }
        ensures events_name { port.new.events.ghost_name ≡ port.old.events.ghost_name }
        ensures follows { Follows W.outside seen_changed
            (offers (outlet_of whom) self.old)
            (reach parts.old port.old.wire.now port.old.events.now)
            (reach parts.new port.new.wire.now port.new.events.now)
            (after_of self.new result) }
        ensures own { OnOk result (OwnsSender parts.old self.old → OwnsSender parts.new self.new) }
        ensures idle { parts.new.called ≡ None }
    {
        let call = self.offer(alloc, whom)?;
        let answer = ask(port, alloc, call)?;
        let done = self.offered(alloc, whom, &answer, parts);
        forget_answer(answer);
        Ok(done?)
    }

    /// More may be sent.
    pub fn send_more<W: Wire>(
        &mut self,
        alloc: Global,
        whom: Handed,
        port: &mut Port<W>,
        parts: &mut Parts,
    ) -> Result<(), Stop>
        requires idle { parts.old.called ≡ None }
        requires own { OwnsSender parts.old self.old }
        ensures wire_name { port.new.wire.ghost_name ≡ port.old.wire.ghost_name }
        ensures events_name { port.new.events.ghost_name ≡ port.old.events.ghost_name }
        ensures follows { Follows W.outside seen_changed
            (plain.send_more (outlet_of whom) self.old)
            (reach parts.old port.old.wire.now port.old.events.now)
            (reach parts.new port.new.wire.now port.new.events.now)
            (after_of self.new result) }
        ensures own { OnOk result (OwnsSender parts.new self.new) }
        ensures idle { parts.new.called ≡ None }
    {
        let call = self.offer(alloc, whom)?;
        let answer = ask(port, alloc, call)?;
        let done = self.sent_more(alloc, whom, &answer, parts);
        forget_answer(answer);
        Ok(done?)
    }

    /// The loss is done: those who wait are told, and the outside is asked to close.
    pub fn lose<W: Wire>(
        &mut self,
        alloc: Global,
        whom: Handed,
        broken: bool,
        port: &mut Port<W>,
        parts: &mut Parts,
    ) -> Result<(), Stop>
        requires idle { parts.old.called ≡ None }
        requires own { OwnsSender parts.old self.old }
        ensures wire_name { port.new.wire.ghost_name ≡ port.old.wire.ghost_name }
        ensures events_name { port.new.events.ghost_name ≡ port.old.events.ghost_name }
        ensures follows { Follows W.outside seen_changed
            (plain.lose_sender (outlet_of whom) broken self.old)
            (reach parts.old port.old.wire.now port.old.events.now)
            (reach parts.new port.new.wire.now port.new.events.now)
            (after_of self.new result) }
        ensures own { OnOk result (OwnsSender parts.new self.new) }
        ensures idle { parts.new.called ≡ None }
    {
        let outcome = loss_outcome(alloc, whom, broken)?;
        let told = self.tell_loss(&outcome, parts);
        forget_outcome(outcome);
        told?;
        forget_answer(ask(port, alloc, closes(whom))?);
        self.end_as(Phase::Lost { broken });
        self.clear_drains();
        Ok(())
    }
}
