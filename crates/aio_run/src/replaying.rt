//! Replaying a script over a journal.
ghost use Rattle.std.specs.Prelude.{◌≡◌, ◌≤◌};
ghost use Rattle.model_wire.specs.Told.{NoneFailed};
ghost use Rattle.model_program.specs.Program.{MayReplay, MayRun};
ghost use Rattle.aio_run.specs.Manner.{manner_of};
ghost use Rattle.aio_run.specs.Writes.{Writes};

use crate::added::added;
use crate::script::{read_script, refuse};
use aio_drive::{Halt, Manner, drive};
use aio_memwire::JournalWire;
use aio_script::Program;
use aio_trace::End;
use aio_wire::{Shelf, Sink};
use std::alloc::Global;

/// Replays a script over a journal.
pub fn replay<F: Shelf, K: Sink>(
    alloc: Global,
    script: &str,
    journal: &str,
    manner: Manner,
    shelf: &mut F,
    out: &mut K,
) -> Result<u8, Halt>
    requires some { 1 ≤ manner.turns }
    ensures written { Writes
        (MayReplay (F.seen shelf.old) (F.seen shelf.new) script.now (manner_of journal.now manner))
        (NoneFailed (F.seen shelf.old) (F.seen shelf.new))
        (K.seen out.old) (K.seen out.new) result }
    ensures files { (F.seen shelf.new).file ≡ (F.seen shelf.old).file }
{
    match read_script(alloc, script, shelf) {
        Ok(program) => replay_program(alloc, &program, journal, manner, shelf, out),
        Err(none) => refuse(alloc, none, out),
    }
}

/// Replays a program over a journal.
fn replay_program<F: Shelf, K: Sink>(
    alloc: Global,
    program: &Program,
    journal: &str,
    manner: Manner,
    shelf: &mut F,
    out: &mut K,
) -> Result<u8, Halt>
    requires some { 1 ≤ manner.turns }
    ensures written { Writes
        (MayRun (F.seen shelf.old) (F.seen shelf.new) program.now (manner_of journal.now manner))
        (NoneFailed (F.seen shelf.old) (F.seen shelf.new))
        (K.seen out.old) (K.seen out.new) result }
    ensures files { (F.seen shelf.new).file ≡ (F.seen shelf.old).file }
{
    let mut wire = JournalWire::answering(alloc, shelf, journal);
    drive(
        alloc,
        program,
        added(alloc),
        manner,
        &End::ShelfFault,
        &mut wire,
        out,
    )
}
