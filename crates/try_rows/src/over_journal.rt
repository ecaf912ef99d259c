//! The program, run over a journal's answers.
use aio_base::Memory;
use aio_memwire::{FailAt, JournalWire};
use aio_run::aio_main;
use aio_wire::{MemShelf, MemSink, Shelf};
use std::alloc::Global;

/// How a run ended, and how many calls of the wire it made.
#[derive(Clone, Copy)]
pub struct Ended {
    pub status: u8,
    pub asked: u64,
}

/// Runs the program for these words, over a shelf and a sink in memory and a wire that answers from a journal. The calls of
/// the wire with the listed numbers fail, counted from 1; without a journal each call does.
pub fn run_over(
    alloc: Global,
    words: &Vec<String>,
    journal: Option<&[u8]>,
    failing: Vec<u64>,
    shelf: &mut FailAt<MemShelf>,
    out: &mut FailAt<MemSink>,
) -> Result<Ended, Memory> {
    let mut answers = MemShelf::new(alloc);
    let put = match journal {
        Some(text) => answers.append(alloc, "j", text).is_ok(),
        None => true,
    };
    let ended = run_asking(alloc, words, &mut answers, failing, shelf, out, put);
    drop(answers);
    ended
}

// Runs it once the journal stands on its shelf.
fn run_asking(
    alloc: Global,
    words: &Vec<String>,
    answers: &mut MemShelf,
    failing: Vec<u64>,
    shelf: &mut FailAt<MemShelf>,
    out: &mut FailAt<MemSink>,
    put: bool,
) -> Result<Ended, Memory> {
    let mut wire = FailAt::new(JournalWire::answering(alloc, answers, "j"), failing);
    let ended = if put {
        let status = aio_main(alloc, words, shelf, &mut wire, out);
        Ok(Ended {
            status,
            asked: wire.made,
        })
    } else {
        Err(Memory)
    };
    drop(wire);
    ended
}
