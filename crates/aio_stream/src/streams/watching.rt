//! What a select watches of one listener or one connection.
ghost use Rattle.std.specs.Prelude.{◌≡◌, Some, slice_get};
ghost use Rattle.model_stream.specs.Watching as plain;
ghost use Rattle.law_over.specs.Gone.{holds_at, is_closed, is_over};
ghost use Rattle.aio_stream.specs.Kept.{may_connect};
ghost use Rattle.aio_stream.specs.Watched.{entries};

use super::Streams;
use crate::held::HeldConnection;
use aio_wire::Watch;

impl Streams {
    /// What a select waits for of a listener: of one that is open, while connections may be
    /// numbered.
    pub fn watched_server(&self, id: u32) -> Option<Watch>
        ensures { entries result
            ≡ plain.watched_server (may_connect self.now) id (slice_get self.now.servers id) }
    {
        let may_accept = self.may_connect();
        let server = self.servers.get(id as usize)?;
        if server.is_open() && may_accept {
            Some(Watch::Server(id))
        } else {
            None
        }
    }

    /// What a select waits for of a connection: of one that is being made, that reads, or that
    /// has something to send.
    pub fn watched_connection(&self, id: u32) -> Option<Watch>
        ensures { entries result
            ≡ plain.watched_connection id (slice_get self.now.connections id) }
    {
        watched_of_one(id, self.connections.get(id as usize)?)
    }

    /// Whether a listener is closed: then a select waits for nothing of it, now and later.
    pub fn is_closed(&self, id: u32) -> bool
        ensures { result ≡ holds_at is_closed (slice_get self.now.servers id) }
    {
        match self.servers.get(id as usize) {
            Some(server) => !server.is_open(),
            None => false,
        }
    }

    /// Whether a connection is over: then a select waits for nothing of it, now and later.
    pub fn is_over(&self, id: u32) -> bool
        ensures { result ≡ holds_at is_over (slice_get self.now.connections id) }
    {
        match self.connections.get(id as usize) {
            Some(connection) => connection.is_over(),
            None => false,
        }
    }
}

// Of a connection that there is.
fn watched_of_one(id: u32, connection: &HeldConnection) -> Option<Watch>
    ensures { entries result ≡ plain.watched_connection id (Some connection.now) }
{
    if connection.making().is_some() {
        return Some(Watch::Making(id));
    }
    let reads = connection.reads();
    let writes = connection.has_unsent();
    if reads || writes {
        Some(Watch::Conn {
            conn: id,
            reads,
            writes,
        })
    } else {
        None
    }
}
