//! The rows of a hub, one after another, and the cases of what stands around it in memory.
ghost use Rattle.std.specs.Prelude.{◌≡◌};
ghost use Rattle.aio_inbox.specs.Naming.{table_of};

use crate::hub_rows::HUB;
use crate::outside::OUTSIDE;
use crate::play::{HubRow, plays};
use aio_inbox::UnnamedInbox;
use std::alloc::Global;
use std::io;
use std::marker::Brand;
use std::sync::Wait;
use try_row::RowCount;

/// Runs all rows of a hub, prints what came of them, and answers how many differed.
pub fn run_hub<R: Print + Wait + Copy>(rt: R, alloc: Global) -> Result<u64, io::Error> {
    let mut tally = RowCount::new();
    for row in &HUB {
        let right = is_right(rt, alloc, row);
        tally.count(&rt, row.name, right)?;
    }
    tally.print(&rt)
}

/// The same of a source, of calls that are made to fail, and of the bytes that a journal's wire hands on.
pub fn run_outside<R: Print>(rt: &R, alloc: Global) -> Result<u64, io::Error> {
    let mut tally = RowCount::new();
    for (name, part) in &OUTSIDE {
        tally.count(rt, name, part.is_right(alloc))?;
    }
    tally.print(rt)
}

// Whether a row comes out as it must. Where memory is refused it doesn't.
fn is_right<R: Wait + Copy>(rt: R, alloc: Global, row: &HubRow) -> bool {
    match UnnamedInbox::new(alloc) {
        Ok(unnamed) => plays::<Brand, R>(rt, alloc, unnamed, row),
        Err(_) => false,
    }
}
