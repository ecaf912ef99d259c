//! Courses of calls.
ghost use Rattle.std.specs.Prelude.{◌≡◌};
ghost use Rattle.aio_inbox.specs.Naming.{table_of};

use crate::asks::{Ask, replies};
use crate::children::{Posts, launches_of};
use aio_asked::Hub;
use aio_hub::{MemLauncher, MemPoller};
use aio_inbox::{InboxName, UnnamedInbox};
use aio_wire::{Answer, ItemList, Wire};
use std::alloc::Global;
use std::sync::Wait;
use try_row::numbers_of;

/// How often a call is asked, the call, and what is replied each time.
pub type HubStep = (u32, Ask, &'static str);

/// What the pumps of so many children post; the times of the poller's answers; which calls of the poller fail, and which of the
/// launcher; the calls, with what is replied to them. Then the hub is closed, and tells how so many pumps ended. One whose
/// lane is full isn't closed, since nobody takes from that lane, and the close would wait for ever.
pub struct HubRow {
    pub name: &'static str,
    pub children: &'static [(u32, Posts)],
    pub times: &'static [u64],
    pub failed_polls: &'static [u64],
    pub failed_launches: &'static [u64],
    pub steps: &'static [HubStep],
    pub ends: Option<usize>,
}

/// A hub over a poller and a launcher in memory.
type RowHub<N, R> = Hub<N, R, MemPoller, MemLauncher<R>>;

/// Whether a row comes out as it must, over an inbox of its own. Where memory is refused it doesn't.
pub fn plays<N: InboxName, R: Wait + Copy>(
    rt: R,
    alloc: Global,
    unnamed: UnnamedInbox,
    row: &HubRow,
) -> bool
    requires { table_of unnamed ≡ N.table }
{
    let poller = MemPoller::new(
        alloc,
        turns_of(alloc, row.times),
        numbers_of(alloc, row.failed_polls),
    );
    let launcher = MemLauncher::new(
        alloc,
        rt,
        launches_of(alloc, row.children),
        numbers_of(alloc, row.failed_launches),
    );
    match RowHub::<N, R>::make(rt, alloc, poller, launcher, unnamed) {
        Ok(hub) => plays_on(alloc, hub, row),
        Err(_) => false,
    }
}

fn plays_on<N: InboxName, R: Wait + Copy>(alloc: Global, hub: RowHub<N, R>, row: &HubRow) -> bool {
    let mut wire = hub;
    let right = row.is_replied(alloc, &mut wire);
    match row.ends {
        Some(count) if right => closes(alloc, wire, count),
        _ => {
            drop(wire);
            right
        }
    }
}

// Whether the close tells of so many pumps.
fn closes<N: InboxName, R: Wait + Copy>(alloc: Global, hub: RowHub<N, R>, count: usize) -> bool {
    match hub.close(alloc) {
        Ok(told) => told.len() == count,
        Err(_) => false,
    }
}

fn turns_of(alloc: Global, times: &[u64]) -> Vec<Answer> {
    let mut turns = Vec::new(alloc);
    for now in times {
        let _pushed = turns.push(Answer::Turn {
            now: *now,
            items: ItemList::of(Vec::new(alloc)),
        });
    }
    turns
}

impl HubRow {
    /// Whether what is replied to the steps is what must be, one after the other.
    fn is_replied<W: Wire>(&self, alloc: Global, wire: &mut W) -> bool {
        for (times, ask, told) in self.steps {
            for number in 0..*times {
                if !replies(alloc, wire, *ask, number, told) {
                    return false;
                }
            }
        }
        true
    }
}
