//! Files of tapes.
use crate::line::line_of;
use crate::tapes::Tapes;
use aio_text::next_line;
use std::alloc::Global;
use std::fs;
use std::rt::Files;
use try_row::RowsStopped;

/// Runs the tapes of these files, and prints a line for each along which a coroutine says something else than it must, and at
/// the end how many there were: along how many one differed.
pub fn run_tapes<R: Files + Print + AllocGlobal>(
    rt: &R,
    alloc: Global,
    paths: &[String],
) -> Result<u64, RowsStopped> {
    let mut tapes = Tapes::new(alloc);
    let ran = run_files(rt, alloc, paths, &mut tapes);
    let (count, differ) = (tapes.count, tapes.differ);
    drop(tapes);
    ran?;
    println!(rt; "{count} tapes, {differ} differ")?;
    Ok(differ)
}

fn run_files<R: Files + Print + AllocGlobal>(
    rt: &R,
    alloc: Global,
    paths: &[String],
    tapes: &mut Tapes,
) -> Result<(), RowsStopped> {
    for path in paths {
        let text = fs::read(rt, path.as_str())?;
        let ran = run_text(rt, alloc, &text, tapes);
        drop(text);
        ran?;
    }
    Ok(())
}

/// Takes the lines of a file one after another.
fn run_text<R: Print>(
    rt: &R,
    alloc: Global,
    text: &[u8],
    tapes: &mut Tapes,
) -> Result<(), RowsStopped> {
    let mut rest = text;
    for _ in 0..u64::MAX {
        let Some((bytes, more)) = next_line(rest) else {
            break;
        };
        rest = more;
        tapes.take(rt, alloc, &line_of(bytes))?;
    }
    Ok(())
}
