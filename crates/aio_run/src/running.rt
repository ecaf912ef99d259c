//! Running a script over the wire.
ghost use Rattle.std.specs.Prelude.{◌≡◌, ◌≤◌};
ghost use Rattle.std.specs.Option.{option_copied};
ghost use Rattle.model_commands.specs.Asked.{AsksOnce};
ghost use Rattle.model_commands.specs.Outputs.{HoldsNoScript, KeepsOthers, MayRun, MayRunOver};
ghost use Rattle.aio_run.specs.Running.{between, pace_of, told_by};
ghost use Rattle.aio_run.specs.Writes.{Writes};

use crate::added::added;
use crate::script::{read_script, refuse};
use aio_drive::{Cut, Halt, Manner, drive_recorded, say};
use aio_script::Program;
use aio_trace::End;
use aio_wire::{Shelf, Sink, Wire};
use std::alloc::Global;

/// Runs a script over the wire. Where a journal is named, each answer is recorded in it.
pub fn run<F: Shelf, W: Wire, K: Sink>(
    alloc: Global,
    script: &str,
    journal: Option<&str>,
    manner: Manner,
    shelf: &mut F,
    wire: &mut W,
    out: &mut K,
) -> Result<u8, Halt>
    requires some { 1 ≤ manner.turns }
    ensures written { Writes
        (MayRunOver (told_by result
        (between (F.seen shelf.old) (F.seen shelf.new) (W.outside.seen wire.old)
        (W.outside.seen wire.new))
        (wire.new ≡ wire.old) (W.outside.fails wire.old)) script.now
        (pace_of (option_copied journal.entry) manner))
        ((F.seen shelf.new ≡ F.seen shelf.old)
        × AsksOnce (W.outside.seen wire.old) (W.outside.seen wire.new))
        (K.seen out.old) (K.seen out.new) result }
    ensures files { KeepsOthers (option_copied journal.entry)
        (F.seen shelf.old) (F.seen shelf.new) }
    ensures wire { HoldsNoScript ((F.seen shelf.old).file script.now) → wire.new ≡ wire.old }
{
    match read_script(alloc, script, shelf) {
        Ok(program) => run_program(alloc, &program, journal, manner, shelf, wire, out),
        Err(none) => refuse(alloc, none, out),
    }
}

/// Runs a program over the wire. Where its answers can't be recorded it ends there.
fn run_program<F: Shelf, W: Wire, K: Sink>(
    alloc: Global,
    program: &Program,
    journal: Option<&str>,
    manner: Manner,
    shelf: &mut F,
    wire: &mut W,
    out: &mut K,
) -> Result<u8, Halt>
    requires some { 1 ≤ manner.turns }
    ensures written { Writes
        (MayRun (told_by result
        (between (F.seen shelf.old) (F.seen shelf.new) (W.outside.seen wire.old)
        (W.outside.seen wire.new))
        (wire.new ≡ wire.old) (W.outside.fails wire.old)) program.now
        (pace_of (option_copied journal.entry) manner))
        ((F.seen shelf.new ≡ F.seen shelf.old)
        × AsksOnce (W.outside.seen wire.old) (W.outside.seen wire.new))
        (K.seen out.old) (K.seen out.new) result }
    ensures files { KeepsOthers (option_copied journal.entry)
        (F.seen shelf.old) (F.seen shelf.new) }
{
    match drive_recorded(
        alloc,
        program,
        added(alloc),
        manner,
        &End::WireFault,
        wire,
        journal,
        shelf,
        out,
    ) {
        Ok(status) => Ok(status),
        Err(Cut::Halted(halt)) => Err(halt),
        Err(Cut::Unrecorded) => say(alloc, "! fault shelf\n", 9, out),
    }
}
