//! What is read of a connection, or of a pipe that a child writes.
ghost use Rattle.std.specs.Prelude.{◌≡◌, None, IfOk, OnOk, length};
ghost use Rattle.model_stream.specs.Requests as plain;
ghost use Rattle.aio_task.specs.View.{View};
ghost use Rattle.aio_stream.specs.Gotten.{all_got};
ghost use Rattle.aio_transports.specs.Owned.{OwnsTransports};
ghost use Rattle.aio_transports.specs.Readers.{reader_as};
ghost use Rattle.aio_transports.specs.Standing.{Becomes, ToldWith};

use super::Transports;
use crate::reader::StreamReader;
use aio_base::Memory;
use aio_stream::{AllGot, StreamGot};
use aio_reader::ReadOp;
use aio_task::{FutureId, Parts};
use std::alloc::Global;

impl Transports {
    /// An operation on what is held, at its start and again at each waking.
    pub fn read(
        &mut self,
        alloc: Global,
        from: StreamReader,
        op: &ReadOp,
        parts: &mut Parts,
    ) -> Result<StreamGot, Memory>
        requires idle { parts.old.called ≡ None }
        requires own { OwnsTransports parts.old self.old }
        ensures told { IfOk result (λ got. ToldWith
            (plain.read (length parts.old.futures) op.now (reader_as from))
            self.old self.new parts.old parts.new got) }
        ensures own { OnOk result (OwnsTransports parts.new self.new) }
        ensures idle { parts.new.called ≡ None }
    {
        match from {
            StreamReader::Conn(id) => self.streams.read(alloc, id, op, parts),
            StreamReader::Child { pipe, id } => self.children.read(alloc, id, pipe, op, parts),
        }
    }

    /// One look of a read with a negative count, at its start and again at each waking.
    pub fn read_all(
        &mut self,
        alloc: Global,
        from: StreamReader,
        parts: &mut Parts,
    ) -> Result<AllGot, Memory>
        requires idle { parts.old.called ≡ None }
        requires own { OwnsTransports parts.old self.old }
        ensures told { IfOk result (λ said. ToldWith
            (plain.read_all (length parts.old.futures) (reader_as from))
            self.old self.new parts.old parts.new (all_got said)) }
        ensures own { OnOk result (OwnsTransports parts.new self.new) }
        ensures idle { parts.new.called ≡ None }
    {
        match from {
            StreamReader::Conn(id) => self.streams.read_all(alloc, id, parts),
            StreamReader::Child { pipe, id } => self.children.read_all(alloc, id, pipe, parts),
        }
    }

    /// The task of a read that waits on this future was resumed.
    pub fn give_up(&mut self, from: StreamReader, on: FutureId)
        ensures after { Becomes (plain.give_up_read on (reader_as from)) self.old self.new }
        ensures own { (v : View) → OwnsTransports v self.old → OwnsTransports v self.new }
    {
        match from {
            StreamReader::Conn(id) => self.streams.give_up(id, on),
            StreamReader::Child { pipe, id } => self.children.give_up(id, pipe, on),
        }
    }
}
