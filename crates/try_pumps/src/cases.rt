//! Cases of one kind after another, each on an inbox of its own, which is named here.
ghost use Rattle.std.specs.Prelude.{◌≡◌};
ghost use Rattle.aio_inbox.specs.Naming.{table_of};

use crate::exchange::{Load, exchange};
use crate::pump_row::PumpRow;
use crate::pump_rows::PUMPS;
use crate::seats::Seats;
use aio_inbox::{InboxName, UnnamedInbox};
use std::alloc::Global;
use std::io;
use std::marker::Brand;
use std::sync::Wait;
use std::thread::Threads;
use std::time::Clock;
use try_row::RowCount;

/// What is done.
#[derive(Clone, Copy)]
pub enum Case {
    /// Posts of two seats, on one thread.
    GoRound,
    /// Posters beside a taker.
    Exchange(Load),
    /// Posters that threads own.
    Lend,
    Pumps(&'static PumpRow),
    FullInbox,
    TwoThatNeedEachOther,
    /// So many pieces of 65,536 bytes through a pump.
    Carry(u64),
}

static INBOX: [(&str, Case); 3] = [
    ("inbox_of_two_seats", Case::GoRound),
    (
        "10000 posts of each of 8 posters",
        Case::Exchange(Load {
            posts: 10_000,
            posters: 8,
        }),
    ),
    ("posters_come_back_from_threads", Case::Lend),
];

/// Runs the cases of an inbox, prints what came of them, and answers how many differed.
pub fn run_inbox<R: Print + Threads + Wait + Clock + Copy + Send + Sync + 'static>(
    rt: &R,
    alloc: Global,
) -> Result<u64, io::Error> {
    run_cases(rt, alloc, &INBOX)
}

/// The same of lanes and pumps.
pub fn run_pumps<R: Print + Threads + Wait + Clock + Copy + Send + Sync + 'static>(
    rt: &R,
    alloc: Global,
) -> Result<u64, io::Error> {
    run_cases(rt, alloc, &PUMPS)
}

/// Only has each of so many posters post so often, of one at least and 1,024 at most: whether all of it came.
pub fn carry_posts<R: Threads + Wait + Clock + Copy + Send + Sync + 'static>(
    rt: &R,
    alloc: Global,
    posts: u32,
    posters: u32,
) -> bool {
    is_right(rt, alloc, Case::Exchange(Load { posts, posters }))
}

/// Whether so many pieces of 65,536 bytes come whole.
pub fn carry_pieces<R: Threads + Wait + Clock + Copy + Send + Sync + 'static>(
    rt: &R,
    alloc: Global,
    pieces: u64,
) -> bool {
    is_right(rt, alloc, Case::Carry(pieces))
}

fn run_cases<R: Print + Threads + Wait + Clock + Copy + Send + Sync + 'static>(
    rt: &R,
    alloc: Global,
    cases: &[(&str, Case)],
) -> Result<u64, io::Error> {
    let mut tally = RowCount::new();
    for (name, case) in cases {
        let right = is_right(rt, alloc, *case);
        tally.count(rt, name, right)?;
    }
    tally.print(rt)
}

// Whether a case comes out as it must. Where memory is refused it doesn't.
fn is_right<R: Threads + Wait + Clock + Copy + Send + Sync + 'static>(
    rt: &R,
    alloc: Global,
    case: Case,
) -> bool {
    match UnnamedInbox::new(alloc) {
        Ok(unnamed) => run_case::<Brand, R>(rt, alloc, unnamed, case),
        Err(_) => false,
    }
}

fn run_case<N, R>(rt: &R, alloc: Global, unnamed: UnnamedInbox, case: Case) -> bool
where
    N: InboxName + Send + Sync + 'static,
    R: Threads + Wait + Clock + Copy + Send + Sync + 'static,
    requires { table_of unnamed ≡ N.table }
{
    match case {
        Case::Exchange(load) => exchange::<N, R>(rt, alloc, unnamed, load),
        Case::GoRound
        | Case::Lend
        | Case::Pumps(_)
        | Case::FullInbox
        | Case::TwoThatNeedEachOther
        | Case::Carry(_) => match Seats::<N>::make(alloc, unnamed) {
            Ok(seats) => seats.run(rt, alloc, case),
            Err(_) => false,
        },
    }
}
