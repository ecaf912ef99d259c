//! Reads of the pipes that a child writes.
ghost use Rattle.std.specs.Prelude.{◌≡◌, [], None, IfOk, OnOk, length};
ghost use Rattle.model_stream.specs.declared.answers.StreamGot.TheVariants as got_as;
ghost use Rattle.model_stream.specs.Requests as plain;
ghost use Rattle.aio_task.specs.View.{View};
ghost use Rattle.aio_child.specs.Gotten.{all_got};
ghost use Rattle.aio_children.specs.Owned.{OwnsChildren};
ghost use Rattle.aio_children.specs.Standing.{Becomes, ToldWith};

use super::Children;
use aio_base::{Blob, Memory};
use aio_child::{AllGot, StreamGot};
use aio_reader::ReadOp;
use aio_task::{FutureId, Parts};
use model_pump::Stream;
use std::alloc::Global;

impl Children {
    /// An operation on what a pipe of a child holds, at its start and again at each waking.
    pub fn read(
        &mut self,
        alloc: Global,
        id: u32,
        pipe: Stream,
        op: &ReadOp,
        parts: &mut Parts,
    ) -> Result<StreamGot, Memory>
        requires idle { parts.old.called ≡ None }
        requires own { OwnsChildren parts.old self.old }
        ensures told { IfOk result (λ got. ToldWith
            (plain.read (length parts.old.futures) op.now (plain.OfChild pipe id))
            self.old self.new parts.old parts.new got) }
        ensures own { OnOk result (OwnsChildren parts.new self.new) }
        ensures idle { parts.new.called ≡ None }
    {
        let Some(child) = self.children.get_mut(id as usize) else {
            return Ok(no_bytes(alloc));
        };
        child.read(alloc, pipe, op, parts)
    }

    /// One look of a read with a negative count, at its start and again at each waking.
    pub fn read_all(
        &mut self,
        alloc: Global,
        id: u32,
        pipe: Stream,
        parts: &mut Parts,
    ) -> Result<AllGot, Memory>
        requires idle { parts.old.called ≡ None }
        requires own { OwnsChildren parts.old self.old }
        ensures told { IfOk result (λ said. ToldWith
            (plain.read_all (length parts.old.futures) (plain.OfChild pipe id))
            self.old self.new parts.old parts.new (all_got said)) }
        ensures own { OnOk result (OwnsChildren parts.new self.new) }
        ensures idle { parts.new.called ≡ None }
    {
        let Some(child) = self.children.get_mut(id as usize) else {
            return Ok(nothing_taken(alloc));
        };
        child.read_all(alloc, pipe, parts)
    }

    /// The task of a read of a pipe that waits on this future was resumed.
    pub fn give_up(&mut self, id: u32, pipe: Stream, on: FutureId)
        ensures after { Becomes (plain.give_up_read on (plain.OfChild pipe id)) self.old self.new }
        ensures own { (v : View) → OwnsChildren v self.old → OwnsChildren v self.new }
    {
        if let Some(child) = self.children.get_mut(id as usize) {
            child.give_up(pipe, on);
        }
    }
}

// What a read of none answers.
fn no_bytes(alloc: Global) -> StreamGot
    ensures { result ≡ got_as.Bytes [] }
{
    StreamGot::Bytes(Blob::of(Vec::new(alloc)))
}

fn nothing_taken(alloc: Global) -> AllGot
    ensures { all_got result ≡ record { taken = []; got = got_as.Bytes [] } }
{
    AllGot {
        taken: Blob::of(Vec::new(alloc)),
        got: no_bytes(alloc),
    }
}
