//! Files of rows, which are played.
ghost use Rattle.std.specs.Prelude.{◌≡◌};
ghost use Rattle.aio_inbox.specs.Naming.{table_of};

use crate::playing::plays;
use aio_inbox::UnnamedInbox;
use std::alloc::Global;
use std::marker::Brand;
use std::rt::Files;
use std::sync::Wait;
use try_row::{Row, RowCount, RowRunner, RowsStopped, run_files};

/// Plays rows, and counts them.
#[derive(Drop)]
struct Player<R> {
    rt: R,
    tally: RowCount,
}

impl<R: Print + Wait + Copy> RowRunner for Player<R> {
    fn run(&mut self, alloc: Global, row: &mut Row) -> Result<(), RowsStopped> {
        let right = is_played(self.rt, alloc, row);
        self.tally.count(&self.rt, row.name.as_str(), right)?;
        Ok(())
    }
}

// Whether a row comes out as it must. Where memory is refused it doesn't.
fn is_played<R: Wait + Copy>(rt: R, alloc: Global, row: &mut Row) -> bool {
    match UnnamedInbox::new(alloc) {
        Ok(unnamed) => plays::<Brand, R>(rt, alloc, unnamed, row),
        Err(_) => false,
    }
}

/// Plays the rows of these files. It prints a line for each that comes out otherwise, and at the end how many there were: how
/// many differed.
pub fn play_files<R: Files + Print + AllocGlobal + Wait + Copy>(
    rt: R,
    alloc: Global,
    paths: &[String],
) -> Result<u64, RowsStopped> {
    let tally = RowCount::new();
    let mut player = Player { rt, tally };
    run_files(&rt, alloc, paths, &mut player)?;
    Ok(player.tally.print(&rt)?)
}
