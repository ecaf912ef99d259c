//! The rows of a text, one after another.
use crate::line::{RowLine, line_of};
use crate::row::Row;
use crate::stopped::RowsStopped;
use aio_base::Memory;
use aio_text::next_line;
use std::alloc::Global;
use std::fs;
use std::rt::Files;

/// What rows are run by.
pub trait RowRunner {
    /// Runs a row, and notes what came of it.
    fn run(&mut self, alloc: Global, row: &mut Row) -> Result<(), RowsStopped>;
}

/// Runs the rows of files, in order.
pub fn run_files<R: Files + AllocGlobal, T: RowRunner>(
    rt: &R,
    alloc: Global,
    paths: &[String],
    runner: &mut T,
) -> Result<(), RowsStopped> {
    for path in paths {
        let text = fs::read(rt, path.as_str())?;
        run_rows(alloc, &text, runner)?;
    }
    Ok(())
}

fn run_rows<T: RowRunner>(alloc: Global, text: &[u8], runner: &mut T) -> Result<(), RowsStopped> {
    let mut rest = text;
    for _ in 0..u64::MAX {
        let Some((name, lines)) = first_name(rest) else {
            break;
        };
        rest = run_row(alloc, name, lines, runner)?;
    }
    Ok(())
}

/// Runs these words over a shelf that has one file.
pub fn run_words<T: RowRunner>(
    alloc: Global,
    words: &[&str],
    name: &str,
    text: &[u8],
    runner: &mut T,
) -> Result<(), RowsStopped> {
    let mut row = Row::new(alloc, name)?;
    let ran = run_filled(alloc, words, name, text, &mut row, runner);
    forget_row(row);
    ran
}

fn run_filled<T: RowRunner>(
    alloc: Global,
    words: &[&str],
    name: &str,
    text: &[u8],
    row: &mut Row,
    runner: &mut T,
) -> Result<(), RowsStopped> {
    for word in words {
        row.add(alloc, &RowLine::Word(word))?;
    }
    row.add(alloc, &RowLine::File(name))?;
    row.add(alloc, &RowLine::End(text))?;
    runner.run(alloc, row)
}

/// Runs the row of this name, whose lines these are: what is left behind them.
fn run_row<'a, T: RowRunner>(
    alloc: Global,
    name: &str,
    lines: &'a [u8],
    runner: &mut T,
) -> Result<&'a [u8], RowsStopped> {
    let mut row = Row::new(alloc, name)?;
    let ran = run_lines(alloc, lines, &mut row, runner);
    forget_row(row);
    ran
}

fn run_lines<'a, T: RowRunner>(
    alloc: Global,
    lines: &'a [u8],
    row: &mut Row,
    runner: &mut T,
) -> Result<&'a [u8], RowsStopped> {
    let rest = add_lines(alloc, lines, row)?;
    runner.run(alloc, row)?;
    Ok(rest)
}

/// The name of the first row, and what follows that line. Lines before it are comments.
fn first_name(text: &[u8]) -> Option<(&str, &[u8])> {
    let mut rest = text;
    for _ in 0..u64::MAX {
        let (bytes, more) = next_line(rest)?;
        rest = more;
        if let RowLine::Row(name) = line_of(bytes) {
            return Some((name, rest));
        }
    }
    None
}

/// Takes a row's lines, up to where the next one begins: what is left.
fn add_lines<'a>(alloc: Global, text: &'a [u8], row: &mut Row) -> Result<&'a [u8], Memory> {
    let mut rest = text;
    for _ in 0..u64::MAX {
        let Some((bytes, more)) = next_line(rest) else {
            break;
        };
        let line = line_of(bytes);
        if matches!(line, RowLine::Row(_)) {
            break;
        }
        row.add(alloc, &line)?;
        rest = more;
    }
    Ok(rest)
}

fn forget_row(_row: Row) {}
