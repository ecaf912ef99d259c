//! The work of a seed.
ghost use Rattle.std.specs.Prelude.{◌≡◌, ℕ, List, Some, codes, IfOk, string_bytes};
ghost use Rattle.model_wire.specs.Trace.{line};
ghost use Rattle.model_commands.specs.Works.{MayWork, counts_text as plain_counts_text, work_text};
ghost use Rattle.aio_tally.specs.Tallied.{plain_counts};
ghost use Rattle.aio_run.specs.Working.{TalliesOver, TalliesWork};
ghost use Rattle.aio_run.specs.Writes.{Writes};

use crate::added::added;
use aio_base::Memory;
use aio_drive::{Halt, say};
use aio_memwire::JournalWire;
use aio_script::{Program, read};
use aio_tally::{Counts, Tally, tally_run};
use aio_wire::{MemShelf, Shelf, Sink};
use std::alloc::{AllocError, Global};

/// As many turns as words may allow.
const MOST_TURNS: u64 = 1 << 40;

/// Runs the work that a seed makes, in memory, and writes on one line how much it did.
pub fn work<K: Sink>(alloc: Global, seed: u64, out: &mut K) -> Result<u8, Halt>
    ensures { Writes (MayWork seed) (Unit {0}) (K.seen out.old) (K.seen out.new) result }
{
    let tally = tally_work(alloc, seed)?;
    let text = work_line(alloc, seed, &tally.counts)?;
    say(alloc, text.as_str(), tally.status, out)
}

/// How much the run of a seed's script over its journal does.
fn tally_work(alloc: Global, seed: u64) -> Result<Tally, Memory>
    ensures { IfOk result (TalliesWork seed) }
{
    let (script, journal) = aio_work::work(alloc, seed)?;
    match read(alloc, script.as_slice()) {
        Ok(program) => tally_program(alloc, &program, journal.as_slice()),
        // The script of a seed isn't refused.
        Err(_) => Err(Memory),
    }
}

/// How much a program does over a journal with this text.
fn tally_program(alloc: Global, program: &Program, journal: &[u8]) -> Result<Tally, Memory>
    ensures { IfOk result (TalliesOver program.now journal.now) }
{
    let mut shelf = MemShelf::new(alloc);
    let _took = shelf.append(alloc, "journal", journal)?;
    tally_over(alloc, program, &mut shelf)
}

/// The same over a shelf's journal.
fn tally_over<F: Shelf>(alloc: Global, program: &Program, shelf: &mut F) -> Result<Tally, Memory>
    ensures { IfOk result (λ tally. (text : List ℕ)
        → (F.seen shelf.old).file (codes "journal") ≡ Some (Some text)
        → TalliesOver program.now text tally) }
{
    let mut wire = JournalWire::answering(alloc, shelf, "journal");
    match tally_run(alloc, program, added(alloc), MOST_TURNS, &mut wire) {
        Ok(tally) => Ok(tally),
        // A shelf in memory doesn't fail where it has the file.
        Err(_) => Err(Memory),
    }
}

fn work_line(alloc: Global, seed: u64, counts: &Counts) -> Result<String, AllocError>
    ensures { IfOk result
        (λ text. string_bytes text ≡ line (work_text seed (plain_counts counts.now))) }
{
    let told = counts_text(alloc, counts)?;
    format!(in alloc; "work {seed}: {told}\n")
}

fn counts_text(alloc: Global, counts: &Counts) -> Result<String, AllocError>
    ensures { IfOk result
        (λ text. string_bytes text ≡ plain_counts_text (plain_counts counts.now)) }
{
    let Counts { tasks, calls, said } = *counts;
    format!(in alloc; "tasks {tasks}, calls {calls}, said {said}")
}
