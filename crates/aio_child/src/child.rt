//! A child, and what is known of it.
ghost use Rattle.std.specs.Prelude.{◌≡◌, ◌++◌, ◌∷◌, ◌&&◌, [], None, Some, OnOk};
ghost use Rattle.std.specs.Prelude.{MatchOption, is_none};
ghost use Rattle.model_value.specs.Value.{Outcome as PlainOutcome};
ghost use Rattle.model_stream.specs.Children as plain;
ghost use Rattle.model_stream.specs.Receivers as receivers;
ghost use Rattle.model_stream.specs.Senders as senders;
ghost use Rattle.model_stream.specs.Watching.{watched_child};
ghost use Rattle.aio_exchange.specs.Ways.{changed_on};
ghost use Rattle.law_over.specs.Gone.{is_over_child};
ghost use Rattle.aio_change.specs.Owned.{AreOwn, settled_way};
ghost use Rattle.aio_change.specs.Seen.{seen_changed};

mod asking;
mod callbacks;
mod receiving;
mod requests;
mod stdin;

use aio_base::{Memory, Outcome};
use aio_change::settle_all;
use aio_receiver::Receiver;
use aio_sender::Sender;
use aio_task::{FutureId, Parts};
use aio_wire::Watch;
use model_pump::Stream;
use std::alloc::Global;
use std::marker::Model;

/// A child. Contracts see it as the definitions' `Child`.
/// Source: `base_subprocess.py`, BaseSubprocessTransport; `subprocess.py`, Process.
#[derive(Drop)]
pub struct Child {
    stdin: Sender,
    out: Receiver,
    errs: Receiver,
    // its exit code, once it is known
    code: Option<i64>,
    // the futures that waits for the exit are on, in order
    waits: Vec<FutureId>,
}

impl Model for Child {
    ghost use Rattle.model_stream.specs.Children as definitions;
    ghost use Rattle.aio_child.specs.Code.{coded_child};

    ghost Value = { definitions.Child };

    ghost coded = { coded_child };

    ghost view = { λ p. record {
      stdin = p.stdin;
      out = p.out;
      errs = p.errs;
      code = p.code;
      waits = p.waits.items;
    } };
}

impl Child {
    /// One that was started; `closed` is the future that `wait_closed` awaits.
    pub fn new(alloc: Global, closed: FutureId) -> Child
        ensures { result ≡ plain.new_child closed }
    {
        Child {
            stdin: Sender::new(alloc, true, closed),
            out: Receiver::new(alloc),
            errs: Receiver::new(alloc),
            code: None,
            waits: Vec::new(alloc),
        }
    }

    /// The future that `wait_closed` awaits.
    pub fn closed(&self) -> FutureId
        ensures { result ≡ self.now.stdin.closed_future }
    {
        self.stdin.closed()
    }

    /// Its exit code, -N where signal N ended it; none before the exit.
    pub fn code(&self) -> Option<i64>
        ensures { result ≡ self.now.code }
    {
        self.code
    }

    /// Whether its exit is still to come.
    pub fn is_running(&self) -> bool
        ensures { result ≡ is_none self.now.code }
    {
        self.code.is_none()
    }

    /// Whether its standard input is closed or lost, or about to be.
    pub fn is_closing(&self) -> bool
        ensures { result ≡ senders.is_closing self.now.stdin }
    {
        self.stdin.is_closing()
    }

    /// Whether the loss of its standard input is done.
    pub fn is_lost(&self) -> bool
        ensures { result ≡ senders.is_lost self.now.stdin }
    {
        self.stdin.is_lost()
    }

    /// Whether something is unsent.
    pub fn has_unsent(&self) -> bool
        ensures { result ≡ senders.has_unsent self.now.stdin }
    {
        self.stdin.has_unsent()
    }

    /// Whether a pipe takes more.
    pub fn takes_more(&self, pipe: Stream) -> bool
        ensures { result ≡ receivers.takes_more ((plain.its_pipe pipe).get self.now) }
    {
        match pipe {
            Stream::Out => self.out.takes_more(),
            Stream::Errs => self.errs.takes_more(),
        }
    }

    /// Whether it is over: the loss of its standard input is done, with nothing left to feed, both
    /// pipes ended, and its exit is known. Then a select waits for nothing of it, now and later.
    pub fn is_over(&self) -> bool
        ensures { result ≡ is_over_child self.now }
    {
        self.stdin.is_spent() && self.out.eof() && self.errs.eof() && self.code.is_some()
    }

    /// What a select waits for of it, if anything.
    pub fn watch(&self, id: u32) -> Option<Watch>
        ensures { MatchOption result (watched_child id (Some self.now) ≡ [])
            (λ entry. watched_child id (Some self.now) ≡ entry ∷ []) }
    {
        let feeds = self.has_unsent();
        let stdin = !self.is_lost();
        let out = self.takes_more(Stream::Out);
        let errs = self.takes_more(Stream::Errs);
        let exit = self.is_running();
        if feeds || stdin || out || errs || exit {
            return Some(Watch::Child {
                child: id,
                feeds,
                stdin,
                out,
                errs,
                exit,
            });
        }
        None
    }

    // Whether the loss of its standard input is scheduled or done.
    fn stdin_ended(&self) -> bool
        ensures { result ≡ self.now.stdin.writer.ended }
    {
        self.stdin.ended()
    }

    // Whether all was fed and it closes.
    fn is_fed(&self) -> bool
        ensures { result
            ≡ (senders.is_flushed self.now.stdin && senders.is_closing self.now.stdin) }
    {
        self.stdin.is_flushed() && self.stdin.is_closing()
    }

    // One more who waits for the exit.
    fn push_wait(&mut self, future: FutureId) -> Result<(), Memory>
        ensures { OnOk result
            (self.new ≡ record self.old { waits = self.old.waits ++ future ∷ [] }) }
    {
        self.waits.push(future)?;
        Ok(())
    }

    // The exit is known, and nobody waits for it any more.
    fn set_code(&mut self, code: i64)
        ensures { self.new ≡ record self.old { code = Some code; waits = [] } }
    {
        self.code = Some(code);
        self.waits.clear();
    }

    // Those who wait for the exit go on.
    fn settle_waits(&self, outcome: &Outcome, parts: &mut Parts) -> Result<(), Memory>
        requires idle { parts.old.called ≡ None }
        requires own { AreOwn parts.old self.now.waits }
        ensures after { OnOk result (parts.new
            ≡ changed_on seen_changed (settled_way outcome.now self.now.waits) parts.old) }
        ensures idle { parts.new.called ≡ None }
    {
        settle_all(&self.waits, outcome, parts)
    }
}
