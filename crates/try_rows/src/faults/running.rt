//! One run, of which at most one call fails.
use crate::faults::fault::{Fault, Part};
use crate::faults::script::Script;
use crate::over_journal::run_over;
use aio_base::Memory;
use std::alloc::Global;
use try_row::{Row, RowRunner, RowsStopped, run_words};

/// The words of a run that is recorded. The last asks for the trace.
static WORDS: [&str; 5] = ["run", "s", "--record", "r", "--trace"];

/// A run of a script, and what it came to: its status, what it wrote and recorded, how many calls of the wire it made, and how
/// many of the part of which a call fails.
#[derive(Drop)]
pub struct Running<'a> {
    script: &'a Script,
    fault: Fault,
    pub status: u8,
    pub written: Vec<u8>,
    pub recorded: Vec<u8>,
    pub asked: u64,
    pub made: u64,
}

impl<'a> Running<'a> {
    /// It didn't run yet.
    pub fn new(alloc: Global, script: &'a Script, fault: Fault) -> Running<'a> {
        Running {
            script,
            fault,
            status: 0,
            written: Vec::new(alloc),
            recorded: Vec::new(alloc),
            asked: 0,
            made: 0,
        }
    }

    /// Runs the script over its answers, and records them, with the trace or without it.
    pub fn run_script(&mut self, alloc: Global, trace: bool) -> Result<(), RowsStopped> {
        let script = self.script;
        let words = if trace { &WORDS[..] } else { &WORDS[..4] };
        run_words(alloc, words, "s", script.text.as_slice(), self)
    }
}

impl<'a> RowRunner for Running<'a> {
    fn run(&mut self, alloc: Global, row: &mut Row) -> Result<(), RowsStopped> {
        note(self.fault, row)?;
        let failing = self.fault.of_wire(alloc)?;
        let journal = Some(self.script.journal.as_slice());
        let ended = run_over(
            alloc,
            &row.words,
            journal,
            failing,
            &mut row.shelf,
            &mut row.out,
        )?;
        self.status = ended.status;
        self.asked = ended.asked;
        self.made = match self.fault.part {
            Part::Wire => ended.asked,
            Part::Shelf => row.shelf.made,
            Part::Sink => row.out.made,
        };
        self.written.extend_from_slice(row.out.inner.taken())?;
        if let Some(recorded) = row.shelf.inner.file("r") {
            self.recorded.extend_from_slice(recorded)?;
        }
        Ok(())
    }
}

/// Has the call fail where it is one of the shelf or of the sink. What was put on the shelf before is no call of the run.
fn note(fault: Fault, row: &mut Row) -> Result<(), Memory> {
    match fault.part {
        Part::Wire => {}
        Part::Shelf => row.shelf.calls.push(fault.number)?,
        Part::Sink => row.out.calls.push(fault.number)?,
    }
    Ok(())
}
