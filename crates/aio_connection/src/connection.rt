//! A connection, and what its two sides do alone.
ghost use Rattle.std.specs.Prelude.{◌≡◌, ◌||◌, false, None, Some, IfOk, IfSome, OnOk, length};
ghost use Rattle.std.specs.Option.{option_copied};
ghost use Rattle.model_stream.specs.Connections as plain;
ghost use Rattle.model_stream.specs.Doing.{Ends, asked_on, on};
ghost use Rattle.model_stream.specs.Receivers as receivers;
ghost use Rattle.model_stream.specs.Senders as senders;
ghost use Rattle.model_stream.specs.Sending as sending;
ghost use Rattle.aio_exchange.specs.Tells.{Tells};
ghost use Rattle.law_over.specs.Gone.{is_over};
ghost use Rattle.aio_change.specs.Seen.{seen_changed};
ghost use Rattle.aio_connection.specs.Lost.{connection_of};
ghost use Rattle.aio_connection.specs.Owned.{OwnsConnection};

mod asking;
mod callbacks;
mod receiving;
mod requests;
mod sending;

use crate::lost::LostConnection;
use aio_base::Exc;
use aio_receiver::Receiver;
use aio_sender::Sender;
use aio_task::FutureId;
use model_stream::Phase;
use std::alloc::Global;
use std::marker::Model;

/// A connection. Contracts see it as the definitions' `Connection`.
/// Source: `selector_events.py`, `_SelectorSocketTransport`; `streams.py`, StreamReader and StreamWriter.
#[derive(Drop)]
pub struct Connection {
    // the future that the connect waits on, while the connection is being made
    making: Option<FutureId>,
    // the coroutine that handles one that was accepted
    handler: Option<u32>,
    began: bool,
    sender: Sender,
    receiver: Receiver,
}

impl Model for Connection {
    ghost use Rattle.model_stream.specs.Connections as definitions;
    ghost use Rattle.aio_connection.specs.Code.{coded_connection};

    ghost Value = { definitions.Connection };

    ghost coded = { coded_connection };

    ghost view = { λ c. record {
      making = c.making;
      handler = c.handler;
      began = c.began;
      sender = c.sender;
      receiver = c.receiver;
    } };
}

impl Connection {
    /// One that is being made, by a connect that waits on a future.
    pub fn connecting(alloc: Global, closed: FutureId, on: FutureId) -> Connection
        ensures { result ≡ plain.connecting closed on }
    {
        Connection {
            making: Some(on),
            handler: None,
            began: false,
            sender: Sender::new(alloc, false, closed),
            receiver: Receiver::new(alloc),
        }
    }

    /// One that was accepted, with the coroutine that handles it.
    pub fn accepted(alloc: Global, closed: FutureId, handler: u32) -> Connection
        ensures { result ≡ plain.accepted closed handler }
    {
        Connection {
            making: None,
            handler: Some(handler),
            began: false,
            sender: Sender::new(alloc, false, closed),
            receiver: Receiver::new(alloc),
        }
    }

    /// The same in few bytes, where it was lost, holds nothing, and nobody waits.
    pub fn lost(&self) -> Option<LostConnection>
        ensures { IfSome result (λ lost. connection_of lost ≡ self.now) }
    {
        if self.making.is_some() {
            return None;
        }
        let Some(sender) = self.sender.lost() else {
            return None;
        };
        let Some(receiver) = self.receiver.bare() else {
            return None;
        };
        Some(LostConnection {
            handler: self.handler,
            sender,
            receiver,
            began: self.began,
        })
    }

    /// The connection that was lost; takes no memory.
    pub fn of_lost(alloc: Global, lost: LostConnection) -> Connection
        ensures { result ≡ connection_of lost }
    {
        Connection {
            making: None,
            handler: lost.handler,
            began: lost.began,
            sender: Sender::of_lost(alloc, lost.sender),
            receiver: Receiver::of_bare(alloc, lost.receiver),
        }
    }

    /// The future that the connect waits on, while the connection is being made.
    pub fn making(&self) -> Option<FutureId>
        ensures { result ≡ self.now.making }
    {
        self.making
    }

    /// The coroutine that handles it, if it was accepted.
    pub fn handler(&self) -> Option<u32>
        ensures { result ≡ self.now.handler }
    {
        self.handler
    }

    /// The future that `wait_closed` awaits.
    pub fn closed(&self) -> FutureId
        ensures { result ≡ self.now.sender.closed_future }
    {
        self.sender.closed()
    }

    /// Whether it receives: from when it began to read until it closes or the end comes, but while reading is paused.
    pub fn reads(&self) -> bool
        ensures { result ≡ plain.reads self.now }
    {
        self.began && !self.sender.is_closing() && self.receiver.takes_more()
    }

    /// Whether it is closed or lost, or about to be.
    pub fn is_closing(&self) -> bool
        ensures { result ≡ senders.is_closing self.now.sender }
    {
        self.sender.is_closing()
    }

    /// Whether its loss is done.
    pub fn is_lost(&self) -> bool
        ensures { result ≡ senders.is_lost self.now.sender }
    {
        self.sender.is_lost()
    }

    /// Whether it is over: it isn't being made any more, its loss is done, and nothing is left to
    /// send. Then a select waits for nothing of it, now and later.
    pub fn is_over(&self) -> bool
        ensures { result ≡ is_over self.now }
    {
        self.making.is_none() && self.sender.is_spent()
    }

    /// Whether something is unsent.
    pub fn has_unsent(&self) -> bool
        ensures { result ≡ senders.has_unsent self.now.sender }
    {
        self.sender.has_unsent()
    }

    // Whether all was sent, and nothing failed.
    fn is_flushed(&self) -> bool
        ensures { result ≡ senders.is_flushed self.now.sender }
    {
        self.sender.is_flushed()
    }

    // Whether the end was written.
    fn wrote_eof(&self) -> bool
        ensures { result ≡ self.now.sender.writer.eof }
    {
        self.sender.eof()
    }

    // Whether the end was written, or it closes.
    fn ends_writing(&self) -> bool
        ensures { result ≡ (senders.is_closing self.now.sender || self.now.sender.writer.eof) }
    {
        self.is_closing() || self.wrote_eof()
    }

    // The exception with which it was lost.
    fn failed(&self) -> Option<&Exc>
        ensures { option_copied result ≡ self.now.receiver.reader.failed }
    {
        self.receiver.failed()
    }

    // The end is written.
    fn set_eof(&mut self)
        ensures { self.new ≡ record self.old {
          sender = senders.with_writer (sending.set_eof self.old.sender.writer) self.old.sender;
        } }
    {
        self.sender.set_eof();
    }

    // It stands.
    fn stands(&mut self)
        ensures { self.new ≡ record self.old { making = None } }
    {
        self.making = None;
    }

    // It is over before it stood.
    fn unmake(&mut self)
        ensures { self.new ≡ plain.unmade self.old }
    {
        self.making = None;
        self.sender.end_as(Phase::Lost { broken: false });
    }
}
