//! All listeners and connections of a run.
mod adding;
mod callbacks;
mod opening;
mod requests;
mod watching;

use crate::held::HeldConnection;
use crate::opened::Opened;
use crate::server::Server;
use std::marker::Model;

/// Listeners and connections by number, and what was opened, in order: children too.
#[derive(Drop)]
pub struct Streams {
    servers: Vec<Server>,
    connections: Vec<HeldConnection>,
    opened: Vec<Opened>,
    // how many of each kind can be numbered
    most: u32,
}

impl Model for Streams {
    ghost use Rattle.aio_stream.specs.Kept.{Kept, all_opened};
    ghost use Rattle.aio_stream.specs.Code.{coded_kept};

    ghost Value = { Kept };

    ghost coded = { coded_kept };

    ghost view = { λ s. record {
      servers = s.servers.items;
      connections = s.connections.items;
      opened = all_opened s.opened.items;
      most = s.most;
    } };
}
