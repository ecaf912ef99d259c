//! What is told of all runs.
use crate::order::Order;
use crate::running::run;
use crate::shares::make_all;
use crate::table::Table;
use aio_base::Memory;
use aio_edge::Files;
use aio_memwire::{ReadFault, read_front};
use std::alloc::Global;
use std::rt;
use std::thread::Threads;

/// As many bytes are read of a script, one more than one may have.
const MOST_READ: usize = 1_048_577;

/// The statuses: each run ended as it must; one didn't; a file or the output failed; memory was refused.
const AS_EXPECTED: u8 = 0;

const NOT_AS_EXPECTED: u8 = 1;

const FAILED: u8 = 9;

const OUT_OF_MEMORY: u8 = 11;

/// Makes the runs, writes how they ended, and gives the status.
pub fn serve<R: rt::Files + Print + Threads + Copy + Sync>(
    rt: R,
    alloc: Global,
    order: &Order,
) -> u8 {
    let mut files = Files::new(rt);
    let read = read_front(alloc, &mut files, order.script.as_str(), MOST_READ);
    let text = match read {
        Ok(text) => text,
        Err(ReadFault::Failed) => {
            let _ = rt.println("! fault shelf");
            return FAILED;
        }
        Err(ReadFault::Memory) => return OUT_OF_MEMORY,
    };
    match serve_text(rt, alloc, order, text.as_slice(), &mut files) {
        Ok(status) => status,
        Err(Memory) => OUT_OF_MEMORY,
    }
}

fn serve_text<R: rt::Files + Print + Threads + Copy + Sync>(
    rt: R,
    alloc: Global,
    order: &Order,
    text: &[u8],
    files: &mut Files<R>,
) -> Result<u8, Memory> {
    let made = make_all(&rt, alloc, order, text)?;
    if show(rt, made.shown.as_slice()) {
        return Ok(FAILED);
    }
    if let Some(status) = made.ended {
        return Ok(status);
    }
    if tell(rt, alloc, order, &made.table)? {
        return Ok(FAILED);
    }
    match made.table.first {
        None => Ok(AS_EXPECTED),
        Some(seed) => record(alloc, order, seed, files),
    }
}

/// Writes a text, and says whether that failed.
fn show<R: Print + Copy>(rt: R, text: &[u8]) -> bool {
    match std::str::from_utf8(text) {
        Ok(text) => !text.is_empty() && rt.print(text).is_err(),
        Err(_) => false,
    }
}

/// Writes the table and a line about all runs, and says whether that failed.
fn tell<R: Print + Copy>(
    rt: R,
    alloc: Global,
    order: &Order,
    table: &Table,
) -> Result<bool, Memory> {
    let mut text = String::from_str(alloc, "    runs       seed    turns    time ms  ending\n")?;
    for (ending, row) in table.rows.iter() {
        let runs = row.runs;
        let seed = row.seed;
        let turns = row.turns;
        let time = row.time;
        let line = format!(in alloc; "{runs:>8} {seed:>10} {turns:>8} {time:>10}  {ending}\n")?;
        text.push_str(line.as_str())?;
    }
    let runs = order.runs;
    let others = table.others;
    let expect = order.expect.as_str();
    let last = match table.first {
        None => format!(in alloc; "{runs} runs, each ended with {expect}\n")?,
        Some(seed) => {
            format!(in alloc;
                "{runs} runs, {others} not with {expect}, first with --seed {seed}\n"
            )?
        }
    };
    text.push_str(last.as_str())?;
    Ok(rt.print(text.as_str()).is_err())
}

/// Records the run of a seed, where its journal is to be kept. It gives the status of a run that didn't end as expected.
fn record<R: rt::Files>(
    alloc: Global,
    order: &Order,
    seed: u64,
    files: &mut Files<R>,
) -> Result<u8, Memory> {
    let Some(name) = &order.record else {
        return Ok(NOT_AS_EXPECTED);
    };
    let script = order.script.as_str();
    let ran = run(alloc, order, script, Some(name.as_str()), seed, files)?;
    if ran.status == FAILED || ran.status == OUT_OF_MEMORY {
        return Ok(ran.status);
    }
    Ok(NOT_AS_EXPECTED)
}
