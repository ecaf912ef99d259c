//! What is known of listeners, connections and children.
ghost use Rattle.std.specs.Prelude.{◌≡◌, length, nat_lt};
ghost use Rattle.model_stream.specs.Requests as plain;
ghost use Rattle.model_stream.specs.Streams.{Streams as PlainStreams, handler_of};
ghost use Rattle.aio_transports.specs.Standing.{TransportsStandFor};

use super::Transports;
use aio_task::FutureId;
use model_wire::Handed;

impl Transports {
    /// Whether a listener has this number.
    pub fn has_server(&self, id: u32) -> bool
        ensures { (s : PlainStreams) → TransportsStandFor self.now s
            → result ≡ nat_lt id (length s.servers) }
    {
        (id as u64) < self.streams.listened()
    }

    /// Whether a connection has this number.
    pub fn has_conn(&self, id: u32) -> bool
        ensures { (s : PlainStreams) → TransportsStandFor self.now s
            → result ≡ nat_lt id (length s.connections) }
    {
        (id as u64) < self.streams.opened()
    }

    /// Whether a child has this number.
    pub fn has_child(&self, id: u32) -> bool
        ensures { (s : PlainStreams) → TransportsStandFor self.now s
            → result ≡ nat_lt id (length s.children) }
    {
        (id as u64) < self.children.launched()
    }

    /// The future that `wait_closed` awaits.
    pub fn closed(&self, whom: Handed) -> Option<FutureId>
        ensures { (s : PlainStreams) → TransportsStandFor self.now s
            → result ≡ plain.closed_future whom s }
    {
        match whom {
            Handed::Conn(id) => self.streams.closed(id),
            Handed::Child(id) => self.children.closed(id),
        }
    }

    /// The exit code of a child, -N where signal N ended it; none before the exit.
    pub fn code(&self, child: u32) -> Option<i64>
        ensures { (s : PlainStreams) → TransportsStandFor self.now s
            → result ≡ plain.returncode child s }
    {
        self.children.code(child)
    }

    /// The coroutine that handles a connection that was accepted, which `made` starts.
    pub fn handler_of(&self, conn: u32) -> Option<u32>
        ensures { (s : PlainStreams) → TransportsStandFor self.now s → result ≡ handler_of conn s }
    {
        self.streams.handler_of(conn)
    }
}
