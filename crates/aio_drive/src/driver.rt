//! The one loop that holds kernel, wire and sink.
ghost use Rattle.std.specs.Prelude.{◌≡◌, ◌≤◌};
ghost use Rattle.std.specs.Option.{option_copied};
ghost use Rattle.model_tree.specs.Syntax.{Program};
ghost use Rattle.model_program.specs.Runs.{run_over};
ghost use Rattle.aio_extra.specs.Added.{KeepsNothing};
ghost use Rattle.aio_core.specs.Turned.{Begins};
ghost use Rattle.aio_drive.specs.Drive.{Drives, DrivesRecorded, LastOf, WritesLimit};
ghost use Rattle.aio_drive.specs.Recording.{TellsNext};

use crate::cut::Cut;
use crate::halt::Halt;
use crate::lines::{tell_turn, write_end};
use crate::recording::NoShelf;
use aio_core::Kernel;
use aio_extra::Extra;
use aio_program::Program;
use aio_trace::End;
use aio_wire::{Events, Shelf, Sink, Wire};
use std::alloc::Global;

/// How a run is driven: with the trace or without it, and of at most so many turns.
#[derive(Clone, Copy, PartialEq, Eq)]
pub struct Manner {
    pub trace: bool,
    pub turns: u64,
}

/// Runs a program over a wire's answers, with what is added to the loop's own requests, and writes
/// its transcript to a sink. Where the wire fails, `fault` is the last line. It answers the exit
/// status.
pub fn drive<X: Extra + Drop, W: Wire, K: Sink>(
    alloc: Global,
    program: &Program,
    extra: X,
    manner: Manner,
    fault: &End,
    wire: &mut W,
    out: &mut K,
) -> Result<u8, Halt>
    requires fresh { ∥ ((kept : X.added.Kept) × KeepsNothing X.added extra kept) ∥₁ }
    requires some { 1 ≤ manner.turns }
    ensures { (kept : X.added.Kept) → KeepsNothing X.added extra kept
        → Drives W.outside (run_over X.added.meaning kept program.now) manner fault.now
        wire.old wire.new (K.seen out.old) (K.seen out.new) result }
{
    match drive_recorded(
        alloc,
        program,
        extra,
        manner,
        fault,
        wire,
        None,
        &mut NoShelf,
        out,
    ) {
        Ok(status) => Ok(status),
        Err(Cut::Halted(halt)) => Err(halt),
        Err(Cut::Unrecorded) => Err(Halt::Sink),
    }
}

/// The same, where the answers of each turn are recorded in a file, if one is named, before the
/// turn's lines are written. Where they can't be, the run is cut short there.
pub fn drive_recorded<X: Extra + Drop, W: Wire, F: Shelf, K: Sink>(
    alloc: Global,
    program: &Program,
    extra: X,
    manner: Manner,
    fault: &End,
    wire: &mut W,
    journal: Option<&str>,
    shelf: &mut F,
    out: &mut K,
) -> Result<u8, Cut>
    requires fresh { ∥ ((kept : X.added.Kept) × KeepsNothing X.added extra kept) ∥₁ }
    requires some { 1 ≤ manner.turns }
    ensures { (kept : X.added.Kept) → KeepsNothing X.added extra kept
        → DrivesRecorded W.outside (run_over X.added.meaning kept program.now) manner fault.now
        wire.old wire.new
        (record {
          name = option_copied journal.entry;
          old = F.seen shelf.old;
          new = F.seen shelf.new;
        })
        (shelf.new ≡ shelf.old) (K.seen out.old) (K.seen out.new) result }
{
    match Kernel::new(alloc, program, extra) {
        Ok(mut kernel) => {
            let driven = drive_kernel(alloc, &mut kernel, manner, fault, wire, journal, shelf, out);
            // Let go by a call, once: at a scope's end each of its fields would be laid out there.
            drop(kernel);
            driven
        }
        Err(_) => Err(Cut::Halted(Halt::Memory)),
    }
}

/// Makes the turns of a kernel whose run begins, records their answers, and writes their lines and
/// the last line.
fn drive_kernel<X: Extra + Drop, W: Wire, F: Shelf, K: Sink>(
    alloc: Global,
    kernel: &mut Kernel<X>,
    manner: Manner,
    fault: &End,
    wire: &mut W,
    journal: Option<&str>,
    shelf: &mut F,
    out: &mut K,
) -> Result<u8, Cut>
    requires some { 1 ≤ manner.turns }
    ensures drives { (kept : X.added.Kept) (program : Program)
        → Begins X.added kept program kernel.old
        → DrivesRecorded W.outside (run_over X.added.meaning kept program) manner fault.now
        wire.old wire.new
        (record {
          name = option_copied journal.entry;
          old = F.seen shelf.old;
          new = F.seen shelf.new;
        })
        (shelf.new ≡ shelf.old) (K.seen out.old) (K.seen out.new) result }
    ensures keeps { W.outside.keeps wire.old wire.new }
{
    for _made in 0..manner.turns {
        match tell_next(
            alloc,
            kernel,
            manner.trace,
            fault,
            wire,
            journal,
            shelf,
            out,
        ) {
            Ok(Some(status)) => return Ok(status),
            Ok(None) => {}
            Err(cut) => return Err(cut),
        }
    }
    match write_limit(alloc, kernel, manner, out) {
        Ok(status) => Ok(status),
        Err(halt) => Err(Cut::Halted(halt)),
    }
}

/// Makes a turn, records its answers, and writes its lines, and where the run ended with it the last
/// line too. It answers the status of a run that ended.
fn tell_next<X: Extra + Drop, W: Wire, F: Shelf, K: Sink>(
    alloc: Global,
    kernel: &mut Kernel<X>,
    trace: bool,
    fault: &End,
    wire: &mut W,
    journal: Option<&str>,
    shelf: &mut F,
    out: &mut K,
) -> Result<Option<u8>, Cut>
    ensures { TellsNext X.added W.outside trace fault.now wire.old wire.new
        (record {
          name = option_copied journal.entry;
          old = F.seen shelf.old;
          new = F.seen shelf.new;
        })
        (shelf.new ≡ shelf.old) (K.seen out.old) (K.seen out.new) kernel.old kernel.new result }
{
    let went = kernel.turn(alloc, wire);
    let events = kernel.events();
    tell_turn(alloc, went, &events, trace, fault, journal, shelf, out)
}

/// Writes the last line of a run that may make no further turn, and answers its status.
fn write_limit<X: Extra + Drop, K: Sink>(
    alloc: Global,
    kernel: &Kernel<X>,
    manner: Manner,
    out: &mut K,
) -> Result<u8, Halt>
    ensures { WritesLimit X.added kernel.now manner (K.seen out.old) (K.seen out.new) result }
{
    let end = last_of(kernel, manner.turns);
    let events = Events::new(alloc);
    let told = write_end(alloc, &events, manner.trace, &end, out);
    drop(events);
    drop(end);
    told
}

/// How a run ends that may make no further turn, of which so many were allowed.
fn last_of<X: Extra + Drop>(kernel: &Kernel<X>, turns: u64) -> End
    ensures { LastOf X.added kernel.now turns result }
{
    if kernel.is_stalled() {
        End::Stalled
    } else {
        End::Turns(turns)
    }
}
