//! A connect that waits.
ghost use Rattle.std.specs.Prelude.{◌≡◌};

use aio_task::FutureId;
use std::marker::Model;

/// A connection that is being made, by its number, and the future that its connect waits on.
/// Contracts see it as a pair.
#[derive(Drop)]
pub struct Connecting {
    conn: u32,
    on: FutureId,
}

impl Model for Connecting {
    ghost use Rattle.std.specs.Prelude.{ℕ};

    ghost Value = { ℕ × ℕ };

    ghost view = { λ c. (c.conn, c.on) };
}

impl Connecting {
    /// The connection with this number, and the future that its connect waits on.
    pub fn new(conn: u32, on: FutureId) -> Connecting
        ensures { result ≡ (conn, on) }
    {
        Connecting { conn, on }
    }

    /// The connection's number.
    pub fn conn(&self) -> u32
        ensures { result ≡ self.now.0 }
    {
        self.conn
    }

    /// The future that the connect waits on.
    pub fn on(&self) -> FutureId
        ensures { result ≡ self.now.1 }
    {
        self.on
    }
}
