//! The turns of a run that is counted.
ghost use Rattle.std.specs.Prelude.{◌≡◌, None, IfOk};
ghost use Rattle.model_tree.specs.Syntax.{Program};
ghost use Rattle.aio_extra.specs.Added.{KeepsNothing};
ghost use Rattle.aio_core.specs.Turned.{Begins, ended};
ghost use Rattle.aio_core.specs.Turning.{wire_turn};
ghost use Rattle.aio_tally.specs.Tallied.{CountsTurn, EndsAtLimit, Tallies};

use crate::counts::Counts;
use crate::ending::{Uncounted, status_after, tasks_after};
use aio_core::Kernel;
use aio_extra::Extra;
use aio_program::Program;
use aio_wire::Wire;
use std::alloc::Global;

/// How much a run did, and its exit status.
#[derive(Clone, Copy, PartialEq, Eq)]
pub struct Tally {
    pub status: u8,
    pub counts: Counts,
}

/// Runs a program over a wire's answers, of at most so many turns, with what is added to the loop's
/// own requests, and counts what it does. Nothing of it is written.
pub fn tally_run<X: Extra + Drop, W: Wire>(
    alloc: Global,
    program: &Program,
    extra: X,
    turns: u64,
    wire: &mut W,
) -> Result<Tally, Uncounted>
    requires fresh { ∥ ((kept : X.added.Kept) × KeepsNothing X.added extra kept) ∥₁ }
    ensures { (kept : X.added.Kept) → KeepsNothing X.added extra kept → IfOk result
        (Tallies X.added.meaning kept program.now turns (W.outside.seen wire.old)) }
{
    match Kernel::new(alloc, program, extra) {
        Ok(mut kernel) => {
            let tallied = tally_kernel(alloc, &mut kernel, turns, wire);
            // Let go by a call, once: at a scope's end each of its fields would be laid out there.
            drop(kernel);
            tallied
        }
        Err(_) => Err(Uncounted::Memory),
    }
}

/// Makes the turns of a kernel whose run begins, and counts what they do.
fn tally_kernel<X: Extra + Drop, W: Wire>(
    alloc: Global,
    kernel: &mut Kernel<X>,
    turns: u64,
    wire: &mut W,
) -> Result<Tally, Uncounted>
    ensures { (kept : X.added.Kept) (program : Program)
        → Begins X.added kept program kernel.old
        → IfOk result (Tallies X.added.meaning kept program turns (W.outside.seen wire.old)) }
{
    let mut counts = Counts {
        tasks: 0,
        calls: 0,
        said: 0,
    };
    for _made in 0..turns {
        match count_turn(alloc, kernel, wire, &mut counts) {
            Ok(Some(status)) => return Ok(Tally { status, counts }),
            Ok(None) => {}
            Err(cause) => return Err(cause),
        }
    }
    counts.tasks = kernel.tasks();
    let status = status_at_limit(kernel);
    Ok(Tally { status, counts })
}

/// Makes a turn and counts what it did. It answers the status of a run that ended with it.
fn count_turn<X: Extra + Drop, W: Wire>(
    alloc: Global,
    kernel: &mut Kernel<X>,
    wire: &mut W,
    counts: &mut Counts,
) -> Result<Option<u8>, Uncounted>
    ensures { ended kernel.old ≡ None → CountsTurn X.added
        (wire_turn W.outside wire.old wire.new) kernel.old kernel.new counts.old counts.new result }
{
    let before = kernel.tasks();
    let went = kernel.turn(alloc, wire);
    let events = kernel.events();
    counts.add(events.items());
    drop(events);
    counts.tasks = tasks_after(&went, before, kernel.tasks());
    let status = status_after(&went);
    drop(went);
    status
}

/// The status of a run that may make no further turn: nothing is pending and nothing can come, or
/// it is out of turns.
fn status_at_limit<X: Extra + Drop>(kernel: &Kernel<X>) -> u8
    ensures { EndsAtLimit X.added kernel.now result }
{
    if kernel.is_stalled() { 7 } else { 10 }
}
