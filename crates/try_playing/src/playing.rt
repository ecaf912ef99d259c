//! A run over a hub that plays.
ghost use Rattle.std.specs.Prelude.{◌≡◌};
ghost use Rattle.aio_inbox.specs.Naming.{table_of};

use crate::launcher::PlayLauncher;
use crate::poller::PlayPoller;
use crate::reading::{answers_in, numbers_in, text_of};
use crate::stage::Stage;
use aio_asked::Hub;
use aio_hub::MemPoller;
use aio_inbox::{InboxName, UnnamedInbox};
use aio_run::aio_main;
use aio_wire::Wire;
use std::alloc::Global;
use std::sync::{Arc, Wait};
use try_row::Row;

/// Where the pumps of the children stand.
type StageOf<N> = Arc<Stage<N>, Global>;

/// A hub whose poller and launcher do what a row's files say.
type PlayHub<N, R> = Hub<N, R, PlayPoller<N, R, MemPoller>, PlayLauncher<N, R>>;

/// Whether a row's run over such a hub comes out as it must, on an inbox of its own. Then the hub is closed.
pub fn plays<N: InboxName, R: Wait + Copy>(
    rt: R,
    alloc: Global,
    unnamed: UnnamedInbox,
    row: &mut Row,
) -> bool
    requires { table_of unnamed ≡ N.table }
{
    match Arc::new(alloc, Stage::<N>::new(alloc)) {
        Ok(stage) => match Arc::try_clone(&stage) {
            Ok(other) => plays_on(rt, alloc, unnamed, row, stage, other),
            Err(_) => false,
        },
        Err(_) => false,
    }
}

fn plays_on<N: InboxName, R: Wait + Copy>(
    rt: R,
    alloc: Global,
    unnamed: UnnamedInbox,
    row: &mut Row,
    stage: StageOf<N>,
    other: StageOf<N>,
) -> bool
    requires { table_of unnamed ≡ N.table }
{
    let poller = poller_of(rt, alloc, row, stage);
    let launcher = PlayLauncher {
        rt,
        stage: other,
        refused: numbers_in(alloc, text_of(row, "refused")),
        made: 0,
        faults: 0,
    };
    match Hub::<N, R, PlayPoller<N, R, MemPoller>, PlayLauncher<N, R>>::make(
        rt, alloc, poller, launcher, unnamed,
    ) {
        Ok(hub) => runs(alloc, row, hub),
        Err(_) => false,
    }
}

fn poller_of<N: InboxName, R: Copy>(
    rt: R,
    alloc: Global,
    row: &Row,
    stage: StageOf<N>,
) -> PlayPoller<N, R, MemPoller> {
    let inner = MemPoller::new(
        alloc,
        answers_in(alloc, text_of(row, "poller")),
        numbers_in(alloc, text_of(row, "failing")),
    );
    PlayPoller {
        rt,
        stage,
        posts: answers_in(alloc, text_of(row, "posts")),
        polled: 0,
        inner,
    }
}

fn runs<N: InboxName, R: Wait + Copy>(alloc: Global, row: &mut Row, hub: PlayHub<N, R>) -> bool {
    let mut wire = hub;
    let right = is_right(alloc, row, &mut wire);
    let ends = wire.close(alloc);
    drop(ends);
    right
}

// Runs the program over this wire: whether it ends, writes and records as it must.
fn is_right<W: Wire>(alloc: Global, row: &mut Row, wire: &mut W) -> bool {
    let status = aio_main(alloc, &row.words, &mut row.shelf, wire, &mut row.out);
    row.ends_with(status)
        && row.out.inner.taken() == row.written.as_slice()
        && text_of(row, "p") == text_of(row, "record")
}
