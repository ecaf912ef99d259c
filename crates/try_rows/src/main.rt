//! Runs worked cases of every kind, in memory, on threads and over the system's own sockets. Its words name the suites
//! that are run, each with its files. It prints a line for each case that comes out otherwise, and for each suite how many
//! there were.
#![tactic(auto)]

mod faults;
mod over_journal;
mod rows;
mod suites;
mod words;

use std::env;
use std::process::ExitCode;
use std::rt::Env;
use suites::run_suites;
use try_row::RowsStopped;

/// The status where cases were not run to their end.
const STOPPED: u8 = 2;

fn main(rt: HostRuntime) -> ExitCode {
    let Ok(words) = words_of(&rt) else {
        return ExitCode::from(STOPPED);
    };
    match run_suites(rt, rt.alloc(), words.as_slice()) {
        Ok(0) => ExitCode::SUCCESS,
        Ok(_) => ExitCode::FAILURE,
        Err(RowsStopped) => ExitCode::from(STOPPED),
    }
}

/// The words behind the program's name.
fn words_of<R: Env + AllocGlobal>(rt: &R) -> Result<Vec<String>, RowsStopped> {
    Ok(env::args(rt)?.skip(1).collect(rt.alloc())?)
}
