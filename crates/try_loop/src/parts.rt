//! The cases.
use crate::chains;
use crate::still::Still;
use aio_base::Memory;
use std::alloc::Global;
use std::io;

/// A case, by its name.
#[derive(Clone, Copy)]
enum PartsCase {
    ManyWithDoneMember,
    ManyOfManys,
}

static CASES: [(&str, PartsCase); 2] = [
    ("many_with_done_member", PartsCase::ManyWithDoneMember),
    ("many_of_1000_manys_is_cancelled", PartsCase::ManyOfManys),
];

impl PartsCase {
    fn run(self, alloc: Global, still: &mut Still) -> Result<bool, Memory> {
        match self {
            PartsCase::ManyWithDoneMember => chains::many_with_done_member(alloc, still),
            PartsCase::ManyOfManys => chains::many_of_manys(alloc, 1_000, still),
        }
    }
}

/// Runs all cases, and prints a line for each: its name, and whether all came out as it must.
pub fn run_parts<R: Print>(rt: &R, alloc: Global) -> Result<(), io::Error> {
    for (name, case) in &CASES {
        println!(rt; "{name}: {}", verdict(alloc, *case))?;
    }
    Ok(())
}

fn verdict(alloc: Global, case: PartsCase) -> &'static str {
    match run_case(alloc, case) {
        Ok(true) => "right",
        Ok(false) => "wrong",
        Err(Memory) => "no memory",
    }
}

// Each case has parts of its own, which are let go by a call: at a scope's end all that they hold
// would be laid out there.
fn run_case(alloc: Global, case: PartsCase) -> Result<bool, Memory> {
    let mut still = Still::new(alloc)?;
    let came = case.run(alloc, &mut still);
    drop(still);
    came
}
