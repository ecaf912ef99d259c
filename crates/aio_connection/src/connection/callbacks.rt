//! Its callbacks.
ghost use Rattle.std.specs.Prelude.{◌≡◌, true, None, Some, IfOk, OnOk};
ghost use Rattle.model_value.specs.declared.outcome.Outcome.TheVariants.{Failed};
ghost use Rattle.model_stream.specs.Connections as plain;
ghost use Rattle.model_stream.specs.Senders.{loss_of};
ghost use Rattle.aio_exchange.specs.Tells.{Tells};
ghost use Rattle.aio_task.specs.View.{View};
ghost use Rattle.aio_change.specs.Seen.{seen_changed};
ghost use Rattle.aio_connection.specs.Owned.{OwnsConnection};

use super::Connection;
use aio_base::{Action, Exc, Kind, Memory, Outcome, Value, exception};
use aio_change::call_soon;
use aio_sender::fault;
use aio_task::{FutureId, Parts};
use aio_wire::Answer;
use model_wire::Handed;
use std::alloc::Global;

impl Connection {
    /// `startread`: it begins to read, unless it is closing.
    pub fn start_read(&mut self)
        ensures after { self.new ≡ plain.start_read self.old }
        ensures own { (v : View) → OwnsConnection v self.old → OwnsConnection v self.new }
    {
        self.began = self.began || !self.sender.is_closing();
    }

    /// `up`: it stands, and the connect goes on with it.
    pub fn up(&mut self, alloc: Global, id: u32, parts: &mut Parts) -> Result<(), Memory>
        requires idle { parts.old.called ≡ None }
        requires own { OwnsConnection parts.old self.old }
        ensures tells { OnOk result (Tells seen_changed (plain.up id self.old)
            parts.old parts.new self.new) }
        ensures own { OnOk result (OwnsConnection parts.new self.new) }
        ensures idle { parts.new.called ≡ None }
    {
        match self.making() {
            None => Ok(()),
            Some(on) => self.stand_up(alloc, id, on, parts),
        }
    }

    // It stands, and the connect that waits on this future goes on with it.
    fn stand_up(
        &mut self,
        alloc: Global,
        id: u32,
        on: FutureId,
        parts: &mut Parts,
    ) -> Result<(), Memory>
        requires idle { parts.old.called ≡ None }
        requires making { self.old.making ≡ Some on }
        requires own { OwnsConnection parts.old self.old }
        ensures tells { OnOk result (Tells seen_changed (plain.stand_up id on self.old)
            parts.old parts.new self.new) }
        ensures own { OnOk result (OwnsConnection parts.new self.new) }
        ensures idle { parts.new.called ≡ None }
    {
        call_soon(alloc, Action::Made(id), parts)?;
        call_soon(alloc, Action::StartRead(id), parts)?;
        let _was_pending = parts.resolve(on, Outcome::Value(Value::conn(id)));
        self.stands();
        Ok(())
    }

    /// `handlerdone`: a handler that failed or was cancelled closes its connection.
    pub fn handler_done(
        &mut self,
        alloc: Global,
        id: u32,
        returned: bool,
        parts: &mut Parts,
    ) -> Result<(), Memory>
        requires idle { parts.old.called ≡ None }
        ensures tells { OnOk result (Tells seen_changed (plain.handler_done id returned self.old)
            parts.old parts.new self.new) }
        ensures own { OnOk result
            (OwnsConnection parts.old self.old → OwnsConnection parts.new self.new) }
        ensures idle { parts.new.called ≡ None }
    {
        if returned {
            return Ok(());
        }
        self.close(alloc, id, parts)
    }

    // What was received.
    pub(super) fn received(
        &mut self,
        alloc: Global,
        id: u32,
        answer: &Answer,
        parts: &mut Parts,
    ) -> Result<(), Memory>
        requires idle { parts.old.called ≡ None }
        requires reads { plain.reads self.old ≡ true }
        requires own { OwnsConnection parts.old self.old }
        ensures tells { OnOk result (Tells seen_changed (plain.received id self.old answer.now)
            parts.old parts.new self.new) }
        ensures own { OnOk result (OwnsConnection parts.new self.new) }
        ensures idle { parts.new.called ≡ None }
    {
        match answer {
            Answer::Data(bytes) => self.receive(alloc, bytes.items(), parts),
            Answer::Eof => {
                self.receive_end(parts);
                Ok(())
            }
            Answer::Again => Ok(()),
            Answer::Broken => self.fail(alloc, id, parts),
            Answer::Turn { now: _, items: _ } => self.fail(alloc, id, parts),
            Answer::Done => self.fail(alloc, id, parts),
            Answer::Refused => self.fail(alloc, id, parts),
            Answer::Conn => self.fail(alloc, id, parts),
            Answer::Took(_) => self.fail(alloc, id, parts),
            Answer::Child => self.fail(alloc, id, parts),
            Answer::Extra(_) => self.fail(alloc, id, parts),
        }
    }
}

/// The exception of a loss, where it is one by failure.
pub(super) fn loss(alloc: Global, id: u32, broken: bool) -> Result<Option<Exc>, Memory>
    ensures { IfOk result (λ loss. loss ≡ loss_of (plain.outlet id) broken) }
{
    if broken {
        Ok(Some(fault(alloc, Handed::Conn(id))?))
    } else {
        Ok(None)
    }
}

/// How a connect ends that is refused.
pub(super) fn refusal(alloc: Global) -> Result<Outcome, Memory>
    ensures { IfOk result (λ outcome. outcome ≡ Failed plain.connect_refused) }
{
    let text = "connect refused";
    Ok(Outcome::Failed(exception(alloc, Kind::ConnectionRefusedError, text)?))
}

pub(super) fn forget_answer(_answer: Answer) {}
