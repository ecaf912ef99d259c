//! Files of rows, and how many of their rows came out otherwise.
mod running;

use running::{Verdict, run};
use std::alloc::Global;
use std::io;
use std::rt::Files;
use try_row::{Row, RowRunner, RowsStopped, run_files};

#[derive(Clone, Copy)]
struct Tally {
    rows: u64,
    differ: u64,
}

/// Runs rows, and counts them.
#[derive(Drop)]
struct RowTally<R> {
    rt: R,
    tally: Tally,
}

impl<R: Print> RowRunner for RowTally<R> {
    fn run(&mut self, alloc: Global, row: &mut Row) -> Result<(), RowsStopped> {
        let verdict = run(alloc, row)?;
        self.tally.count(&self.rt, row.name.as_str(), verdict)?;
        Ok(())
    }
}

/// Runs the rows of these files. It prints a line for each that comes out otherwise, and at the end how many there were: how
/// many differed.
pub fn run_rows<R: Files + Print + AllocGlobal + Copy>(
    rt: R,
    alloc: Global,
    paths: &[String],
) -> Result<u64, RowsStopped> {
    let tally = Tally { rows: 0, differ: 0 };
    let mut rows = RowTally { rt, tally };
    run_files(&rt, alloc, paths, &mut rows)?;
    let Tally { rows, differ } = rows.tally;
    println!(rt; "{rows} rows, {differ} differ")?;
    Ok(differ)
}

impl Tally {
    /// Counts a row, and prints a line where it came out otherwise.
    fn count<R: Print>(&mut self, rt: &R, name: &str, verdict: Verdict) -> Result<(), io::Error> {
        self.rows = self.rows.saturating_add(1);
        match verdict {
            Verdict::Right => return Ok(()),
            Verdict::OtherStatus(status) => println!(rt; "{name}: ended with status {status}")?,
            Verdict::OtherText(at) => println!(rt;
                "{name}: wrote something else from byte {at} on"
            )?,
        }
        self.differ = self.differ.saturating_add(1);
        Ok(())
    }
}
