//! Scripts of which each call of the outside fails in turn, of the wire, of the shelf and of the sink. What each run comes to
//! is compared with the run in which none fails.

mod fault;
mod lines;
mod memory;
mod running;
mod script;
mod tally;
mod whole;

use memory::is_all_or_front;
use script::Script;
use std::alloc::Global;
use std::rt::Files;
use tally::Tally;
use try_row::RowsStopped;

/// Makes the calls of each script fail that is named. For each part of the outside it prints a line with the number of its
/// calls, and at the end how many there were in all: how many runs came out otherwise.
pub fn fail_scripts<R: Files + Print + AllocGlobal>(
    rt: &R,
    alloc: Global,
    names: &[String],
) -> Result<u64, RowsStopped> {
    let mut tally = Tally::new();
    for name in names {
        let script = Script::read(rt, alloc, name.as_str())?;
        let failed = tally.fail_script(rt, alloc, &script);
        drop(script);
        failed?;
    }
    println!(rt;
        "{} scripts, {} calls, {} differ",
        tally.scripts, tally.calls, tally.differ
    )?;
    Ok(tally.differ)
}

/// Runs each script once that is named, and no call of it fails. Whatever memory is refused to a run, its line is the same.
pub fn run_scripts<R: Files + Print + AllocGlobal>(
    rt: &R,
    alloc: Global,
    names: &[String],
) -> Result<u64, RowsStopped> {
    for name in names {
        let script = Script::read(rt, alloc, name.as_str())?;
        let ran = run_script(rt, alloc, &script);
        drop(script);
        ran?;
    }
    Ok(0)
}

/// Runs a script, and prints whether it came to all that it must, or to a front of that.
fn run_script<R: Print>(rt: &R, alloc: Global, script: &Script) -> Result<(), RowsStopped> {
    let verdict = if is_all_or_front(alloc, script)? {
        "all or a front"
    } else {
        "neither all nor a front"
    };
    println!(rt; "{}: {verdict}", script.name)?;
    Ok(())
}
