//! What is known of listeners and connections.
ghost use Rattle.std.specs.Prelude.{◌≡◌, [], length, slice_get};
ghost use Rattle.std.specs.Option.{option_map};
ghost use Rattle.model_stream.specs.Connections.{Connection as PlainConnection};
ghost use Rattle.model_stream.specs.Streams.{Streams as PlainStreams, handler_of};
ghost use Rattle.aio_stream.specs.Kept.{all_opened};
ghost use Rattle.aio_stream.specs.Standing.{StreamStandsFor};

use super::Streams;
use crate::opened::Opened;
use aio_task::FutureId;
use std::alloc::Global;

impl Streams {
    /// Nothing was opened so far, and so many of each kind can be numbered.
    pub fn new(alloc: Global, most: u32) -> Streams
        ensures { result
            ≡ record { servers = []; connections = []; opened = []; most = most } }
    {
        Streams {
            servers: Vec::new(alloc),
            connections: Vec::new(alloc),
            opened: Vec::new(alloc),
            most,
        }
    }

    /// How many listeners were numbered so far.
    pub fn listened(&self) -> u64
        ensures { result ≡ length self.now.servers }
    {
        self.servers.len() as u64
    }

    /// How many connections were numbered so far.
    pub fn opened(&self) -> u64
        ensures { result ≡ length self.now.connections }
    {
        self.connections.len() as u64
    }

    /// What was opened, in order of opening.
    pub fn opened_in_order(&self) -> &[Opened]
        ensures { all_opened result.now ≡ self.now.opened }
    {
        &self.opened
    }

    /// The future that `wait_closed` of a connection awaits.
    pub fn closed(&self, id: u32) -> Option<FutureId>
        ensures { result ≡ option_map (λ (c : PlainConnection). c.sender.closed_future)
            (slice_get self.now.connections id) }
    {
        let connection = self.connections.get(id as usize)?;
        Some(connection.closed())
    }

    /// The coroutine that handles a connection that was accepted, which `made` starts.
    pub fn handler_of(&self, id: u32) -> Option<u32>
        ensures { (s : PlainStreams) → StreamStandsFor self.now s → result ≡ handler_of id s }
    {
        let connection = self.connections.get(id as usize)?;
        connection.handler()
    }
}
