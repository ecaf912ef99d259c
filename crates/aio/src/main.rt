//! The program: it hands the words, the files, the outside and the standard output to the run, and ends with its status.
#![tactic(auto)]

mod live;

use aio_base::Memory;
use std::env;
use std::io::ErrorKind;
use std::process::ExitCode;
use std::rt::Env;

/// The status where memory was refused.
const OUT_OF_MEMORY: u8 = 11;

fn main(rt: HostRuntime) -> ExitCode {
    let alloc = rt.alloc();
    let Ok(words) = words_of(&rt) else {
        return ExitCode::from(OUT_OF_MEMORY);
    };
    ExitCode::from(live::run(rt, alloc, &words))
}

/// The words behind the program's name. Where one of them is no text, none is given, as if the program had been called
/// without any.
fn words_of<R: Env + AllocGlobal>(rt: &R) -> Result<Vec<String>, Memory> {
    match env::args(rt) {
        Ok(words) => Ok(words.skip(1).collect(rt.alloc())?),
        Err(error) if error.kind() == ErrorKind::OutOfMemory => Err(Memory),
        Err(_) => Ok(Vec::new(rt.alloc())),
    }
}
