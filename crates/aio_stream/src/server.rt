//! A listener.
ghost use Rattle.std.specs.Prelude.{◌≡◌, true};
ghost use Rattle.model_stream.specs.Streams.{closed_server};

use std::marker::Model;

/// A listener: the coroutine that handles its connections, and whether it is open. Contracts see it as the definitions'
/// `Server`.
/// Source: `base_events.py`, Server.
#[derive(Drop)]
pub struct Server {
    handler: u32,
    listens: bool,
}

impl Model for Server {
    ghost use Rattle.model_stream.specs.Listeners as definitions;

    ghost Value = { definitions.Server };

    ghost view = { λ s. record { handler = s.handler; is_open = s.listens } };
}

impl Server {
    /// One that is open.
    pub fn new(handler: u32) -> Server
        ensures { result ≡ record { handler = handler; is_open = true } }
    {
        Server {
            handler,
            listens: true,
        }
    }

    /// The coroutine that handles its connections.
    pub fn handler(&self) -> u32
        ensures { result ≡ self.now.handler }
    {
        self.handler
    }

    /// Whether it is open.
    pub fn is_open(&self) -> bool
        ensures { result ≡ self.now.is_open }
    {
        self.listens
    }

    /// It is closed.
    pub fn close(&mut self)
        ensures { self.new ≡ closed_server self.old }
    {
        self.listens = false;
    }
}
