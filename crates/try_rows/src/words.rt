//! Files of lists of words, read as the program reads them.

mod lists;

use lists::Lists;
use std::alloc::Global;
use std::fs;
use std::rt::Files;
use try_row::RowsStopped;

/// Reads the lists of these files, and prints a line for each that asks for something else than it must, and at the end how
/// many there were: how many differed.
pub fn run_lists<R: Files + Print + AllocGlobal>(
    rt: &R,
    alloc: Global,
    paths: &[String],
) -> Result<u64, RowsStopped> {
    let mut lists = Lists::new(alloc);
    for path in paths {
        let text = fs::read(rt, path.as_str())?;
        lists.read(rt, alloc, &text)?;
    }
    println!(rt; "{} lists, {} differ", lists.count, lists.differ)?;
    Ok(lists.differ)
}
