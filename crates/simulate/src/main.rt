//! Runs a script over outsides that are made up, one for each of many seeds, and tells how the runs ended.
#![tactic(auto)]

mod order;
mod running;
mod shares;
mod table;
mod telling;

use crate::order::order_of;
use crate::telling::serve;
use aio_base::Memory;
use std::env;
use std::io::ErrorKind;
use std::process::ExitCode;
use std::rt::Env;

/// The statuses that are no run's: the words are refused, and memory was refused.
const WORDS_REFUSED: u8 = 2;

const OUT_OF_MEMORY: u8 = 11;

const USAGE: &str = "\
simulate SCRIPT [--seed N] [--runs N] [--jobs N] [--turns N] [--faults LIST | --calm]
         [--expect TEXT] [--record NAME]
docs/SIMULATE.md tells what each is.
";

fn main(rt: HostRuntime) -> ExitCode {
    let alloc = rt.alloc();
    let Ok(words) = words_of(&rt) else {
        return ExitCode::from(OUT_OF_MEMORY);
    };
    let status = match order_of(alloc, words.as_slice()) {
        Ok(Some(order)) => serve(rt, alloc, &order),
        Ok(None) => {
            let _ = rt.eprint(USAGE);
            WORDS_REFUSED
        }
        Err(Memory) => OUT_OF_MEMORY,
    };
    ExitCode::from(status)
}

/// The words behind the program's name; none where one of them is no text.
fn words_of<R: Env + AllocGlobal>(rt: &R) -> Result<Vec<String>, Memory> {
    match env::args(rt) {
        Ok(words) => Ok(words.skip(1).collect(rt.alloc())?),
        Err(error) if error.kind() == ErrorKind::OutOfMemory => Err(Memory),
        Err(_) => Ok(Vec::new(rt.alloc())),
    }
}
