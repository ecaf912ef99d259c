//! The program, run over a row.
use crate::over_journal::run_over;
use aio_base::Memory;
use std::alloc::Global;
use try_row::{Row, first_difference};

/// What came of a row.
#[derive(Clone, Copy)]
pub enum Verdict {
    Right,
    /// It ended with this status.
    OtherStatus(u8),
    /// What it wrote differs first at this byte, from 0.
    OtherText(usize),
}

/// Runs the program over the row's words and files. Each call of its wire fails.
pub fn run(alloc: Global, row: &mut Row) -> Result<Verdict, Memory> {
    let none = Vec::new(alloc);
    let ended = run_over(alloc, &row.words, None, none, &mut row.shelf, &mut row.out)?;
    Ok(verdict_of(row, ended.status))
}

fn verdict_of(row: &Row, status: u8) -> Verdict {
    if !row.ends_with(status) {
        return Verdict::OtherStatus(status);
    }
    match first_difference(row.out.inner.taken(), &row.written) {
        Some(at) => Verdict::OtherText(at),
        None => Verdict::Right,
    }
}
