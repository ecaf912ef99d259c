//! The runs in shares, each made by a thread of its own.
ghost use Rattle.std.specs.Prelude.{◌≤◌, max, vec_len, IfOk};
ghost use Rattle.simulate.specs.Shares.{Covers};

use crate::order::Order;
use crate::running::{Ran, last_line, run, shelf_of};
use crate::table::{Row, Table};
use aio_base::Memory;
use std::alloc::Global;
use std::thread;
use std::thread::Threads;

/// The name of the script on a shelf in memory.
const SCRIPT: &str = "script";

/// The statuses of a run that end the program: the script is refused, and memory was refused.
const SCRIPT_REFUSED: u8 = 3;

const OUT_OF_MEMORY: u8 = 11;

/// Runs with seeds that follow one another: how many come before them, and how many they are.
#[derive(Drop)]
struct Share {
    before: u64,
    runs: u64,
}

/// What came of runs with seeds that follow one another: how they ended, what is written before the table, which is a refusal
/// or the transcript of an only run, and the status of the run that ends the program, after which no other is made.
#[derive(Drop)]
pub struct Made {
    pub table: Table,
    pub shown: Vec<u8>,
    pub ended: Option<u8>,
}

/// Makes all runs of an order, each thread a share of them. It is the same whatever the number of threads.
pub fn make_all<R: Threads + Sync>(
    rt: &R,
    alloc: Global,
    order: &Order,
    text: &[u8],
) -> Result<Made, Memory> {
    let shares = shares_of(alloc, order.runs, order.jobs)?;
    let parts = thread::map_vec(rt, shares, &|share: Share| make(alloc, order, text, share))?;
    let mut all = Made::new(alloc);
    for part in parts {
        all.append(alloc, part?)?;
    }
    Ok(all)
}

/// The shares of so many runs, as many as there are jobs, but none of no runs beside others: all runs, each in one share, in
/// the order of their numbers.
fn shares_of(alloc: Global, runs: u64, jobs: u64) -> Result<Vec<Share>, Memory>
    ensures each { IfOk result (λ all. Covers 0 runs all.items) }
    ensures few { IfOk result (λ all. vec_len all ≤ max 1 jobs) }
{
    let count = jobs.min(runs).max(1);
    let mut shares = Vec::new(alloc);
    let mut before = 0;
    for number in 1..count {
        let share = (runs - before) / (count - number + 1);
        shares.push(Share {
            before,
            runs: share,
        })?;
        before += share;
    }
    shares.push(Share {
        before,
        runs: runs - before,
    })?;
    Ok(shares)
}

/// Makes the runs of a share, up to one that ends the program.
fn make(alloc: Global, order: &Order, text: &[u8], share: Share) -> Result<Made, Memory> {
    let mut shelf = shelf_of(alloc, SCRIPT, text)?;
    let mut made = Made::new(alloc);
    let first = order.seed.saturating_add(share.before);
    for number in 0..share.runs {
        let seed = first.saturating_add(number);
        let ran = run(alloc, order, SCRIPT, None, seed, &mut shelf)?;
        made.note(alloc, order, seed, &ran)?;
        if made.ended.is_some() {
            break;
        }
    }
    Ok(made)
}

impl Made {
    fn new(alloc: Global) -> Made {
        Made {
            table: Table::new(alloc),
            shown: Vec::new(alloc),
            ended: None,
        }
    }

    /// Notes how one run more ended.
    fn note(&mut self, alloc: Global, order: &Order, seed: u64, ran: &Ran) -> Result<(), Memory> {
        let text = ran.out.taken();
        if ran.status == OUT_OF_MEMORY {
            self.ended = Some(ran.status);
            return Ok(());
        }
        if ran.status == SCRIPT_REFUSED {
            self.ended = Some(ran.status);
            self.shown.extend_from_slice(text)?;
            return Ok(());
        }
        if order.runs == 1 {
            self.shown.extend_from_slice(text)?;
        }
        let line = last_line(text);
        let row = Row {
            runs: 1,
            seed,
            turns: ran.turns,
            time: ran.time,
        };
        let is_expected = line.starts_with(order.expect.as_str().as_bytes());
        self.table.note(alloc, ending_of(line), row, is_expected)
    }

    /// The runs of the next share, unless one of its own ends the program.
    fn append(&mut self, alloc: Global, later: Made) -> Result<(), Memory> {
        if self.ended.is_none() {
            self.table.append(alloc, &later.table)?;
            self.shown.extend_from_slice(later.shown.as_slice())?;
            self.ended = later.ended;
        }
        Ok(())
    }
}

/// An ending: a last line, but that one which waits for what never comes isn't told what for.
fn ending_of(line: &[u8]) -> &str {
    let line = match std::str::from_utf8(line) {
        Ok(line) => line,
        Err(_) => "= what is no text",
    };
    if line.starts_with("! over select none") {
        "! over select none"
    } else {
        line
    }
}
