//! One run.
use crate::order::Order;
use aio_base::Memory;
use aio_run::aio_main;
use aio_simwire::{Chance, Fault, Rates, SimWire};
use aio_wire::{MemShelf, MemSink, Shelf};
use std::alloc::Global;

/// A run that ended: its status, its transcript, and how many turns and milliseconds of its own time it had.
#[derive(Drop)]
pub struct Ran {
    pub status: u8,
    pub out: MemSink,
    pub turns: u64,
    pub time: u64,
}

/// Runs a script of a shelf over the outside of a seed; its answers are appended to the recorded file, if there is one.
pub fn run<F: Shelf>(
    alloc: Global,
    order: &Order,
    script: &str,
    recorded: Option<&str>,
    seed: u64,
    shelf: &mut F,
) -> Result<Ran, Memory> {
    let words = words_of(alloc, script, order.turns, recorded)?;
    let mut wire = wire_of(alloc, order.faults.as_slice(), seed);
    let mut out = MemSink::new(alloc);
    let status = aio_main(alloc, &words, shelf, &mut wire, &mut out);
    Ok(Ran {
        status,
        out,
        turns: wire.turns(),
        time: wire.time(),
    })
}

/// The outside of a seed: the rates of what may go wrong are drawn first, and then it decides by the numbers that follow.
fn wire_of(alloc: Global, faults: &[Fault], seed: u64) -> SimWire {
    let mut chance = Chance::of_seed(seed);
    let rates = Rates::drawn(&mut chance, faults);
    SimWire::new(alloc, chance, rates)
}

/// The words of a run.
fn words_of(
    alloc: Global,
    script: &str,
    turns: u64,
    recorded: Option<&str>,
) -> Result<Vec<String>, Memory> {
    let mut words = Vec::new(alloc);
    words.push(String::from_str(alloc, "run")?)?;
    words.push(String::from_str(alloc, script)?)?;
    words.push(String::from_str(alloc, "--turns")?)?;
    words.push(format!(in alloc; "{turns}")?)?;
    if let Some(name) = recorded {
        words.push(String::from_str(alloc, "--record")?)?;
        words.push(String::from_str(alloc, name)?)?;
    }
    Ok(words)
}

/// A transcript's last line, without its newline.
pub fn last_line(text: &[u8]) -> &[u8] {
    let front = match text.strip_suffix(b"\n") {
        Some(front) => front,
        None => text,
    };
    match front.rsplit(|byte| *byte == b'\n').next() {
        Some(line) => line,
        None => front,
    }
}

/// A script in memory under this name.
pub fn shelf_of(alloc: Global, name: &str, text: &[u8]) -> Result<MemShelf, Memory> {
    let mut shelf = MemShelf::new(alloc);
    let _ = shelf.append(alloc, name, text)?;
    Ok(shelf)
}
