//! One listener or connection more, with the next number; or a child, which is numbered elsewhere.
ghost use Rattle.std.specs.Prelude.{◌≡◌, ◌^◌, ◌<◌, true, IfOk, OnOk, length};
ghost use Rattle.aio_stream.specs.Kept as kept;

use super::Streams;
use crate::held::HeldConnection;
use crate::opened::Opened;
use crate::server::Server;
use aio_base::Memory;
use aio_connection::Connection;

impl Streams {
    /// Whether one more listener can be numbered.
    pub fn may_listen(&self) -> bool
        ensures is { result ≡ kept.may_listen self.now }
        ensures room { result ≡ true → length self.now.servers < 2 ^ 32 }
    {
        self.servers.len() < self.most as usize
    }

    /// Whether one more connection can be numbered.
    pub fn may_connect(&self) -> bool
        ensures is { result ≡ kept.may_connect self.now }
        ensures room { result ≡ true → length self.now.connections < 2 ^ 32 }
    {
        self.connections.len() < self.most as usize
    }

    /// A listener that is open, and its number. The coroutine `handler` handles its connections.
    pub fn add_server(&mut self, handler: u32) -> Result<u32, Memory>
        requires room { length self.old.servers < 2 ^ 32 }
        ensures number { IfOk result (λ id. id ≡ length self.old.servers) }
        ensures after { OnOk result (self.new
            ≡ kept.with_server (record { handler = handler; is_open = true }) self.old) }
    {
        let id = self.servers.len() as u32;
        self.servers.push(Server::new(handler))?;
        self.opened.push(Opened::Server(id))?;
        Ok(id)
    }

    /// A connection, and its number.
    pub fn add_connection(&mut self, connection: Connection) -> Result<u32, Memory>
        requires room { length self.old.connections < 2 ^ 32 }
        ensures number { IfOk result (λ id. id ≡ length self.old.connections) }
        ensures after { OnOk result (self.new ≡ kept.with_connection connection self.old) }
    {
        let id = self.connections.len() as u32;
        let alloc = *self.connections.allocator();
        let held = HeldConnection::new(alloc, connection)?;
        self.connections.push(held)?;
        self.opened.push(Opened::Conn(id))?;
        Ok(id)
    }

    /// A child was opened, with this number. Of a child no more is kept here.
    pub fn add_child(&mut self, id: u32) -> Result<(), Memory>
        ensures { OnOk result (self.new ≡ kept.with_child id self.old) }
    {
        self.opened.push(Opened::Child(id))?;
        Ok(())
    }

    /// The coroutine that handles the connections of a listener, if that is open.
    pub fn listening(&self, id: u32) -> Option<u32>
        ensures { result ≡ kept.listening id self.now }
    {
        let server = self.servers.get(id as usize)?;
        if server.is_open() {
            Some(server.handler())
        } else {
            None
        }
    }

    /// A listener is closed.
    pub fn close_listener(&mut self, id: u32)
        ensures { self.new ≡ kept.with_closed id self.old }
    {
        let Some(server) = self.servers.get_mut(id as usize) else {
            return;
        };
        server.close();
    }
}
