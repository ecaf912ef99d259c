//! A script's run over what the outside answers.
ghost use Rattle.aio_extra.specs.Added.{KeepsNothing};

use aio_drive::{Manner, drive};
use aio_extra::Extra;
use aio_memwire::JournalWire;
use aio_program::Program;
use aio_script::read;
use aio_trace::End;
use aio_wire::{MemShelf, MemSink, Shelf};
use std::alloc::Global;
use try_row::RowsStopped;

/// Turns whose time stays at 0.
pub const AT_ONCE: &str = "turn 0\nturn 0\nturn 0\nturn 0\nturn 0\nturn 0\nturn 0\nturn 0\n";

/// With the trace, and of more turns than there are answers.
const MANNER: Manner = Manner {
    trace: true,
    turns: 2000,
};

/// The transcript of a script over these answers, with the trace.
pub fn transcript<X: Extra + Drop>(
    alloc: Global,
    script: &str,
    answers: &str,
    extra: X,
) -> Result<Vec<u8>, RowsStopped>
    requires fresh { ∥ ((kept : X.added.Kept) × KeepsNothing X.added extra kept) ∥₁ }
{
    match read(alloc, script.as_bytes()) {
        Ok(program) => {
            let text = transcript_of(alloc, &program, answers, extra);
            drop(program);
            text
        }
        Err(_) => {
            drop(extra);
            Err(RowsStopped)
        }
    }
}

fn transcript_of<X: Extra + Drop>(
    alloc: Global,
    program: &Program,
    answers: &str,
    extra: X,
) -> Result<Vec<u8>, RowsStopped>
    requires fresh { ∥ ((kept : X.added.Kept) × KeepsNothing X.added extra kept) ∥₁ }
{
    let mut shelf = MemShelf::new(alloc);
    let text = match shelf.append(alloc, "answers", answers.as_bytes()) {
        Ok(_) => drive_over(alloc, program, &mut shelf, extra),
        Err(_) => {
            drop(extra);
            Err(RowsStopped)
        }
    };
    drop(shelf);
    text
}

fn drive_over<X: Extra + Drop>(
    alloc: Global,
    program: &Program,
    shelf: &mut MemShelf,
    extra: X,
) -> Result<Vec<u8>, RowsStopped>
    requires fresh { ∥ ((kept : X.added.Kept) × KeepsNothing X.added extra kept) ∥₁ }
{
    let mut wire = JournalWire::answering(alloc, shelf, "answers");
    let mut out = MemSink::new(alloc);
    let driven = drive(
        alloc,
        program,
        extra,
        MANNER,
        &End::ShelfFault,
        &mut wire,
        &mut out,
    );
    drop(wire);
    let text = match driven {
        Ok(_) => copy_of(alloc, out.taken()),
        Err(_) => Err(RowsStopped),
    };
    drop(out);
    text
}

fn copy_of(alloc: Global, text: &[u8]) -> Result<Vec<u8>, RowsStopped> {
    let mut copy = Vec::new(alloc);
    copy.extend_from_slice(text)?;
    Ok(copy)
}
