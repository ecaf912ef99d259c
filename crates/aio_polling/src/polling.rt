//! The poll of a select.
ghost use Rattle.std.specs.Prelude.{◌≡◌, ◌≤◌, Some, IfOk, if◌then◌else◌};
ghost use Rattle.model_hub.specs.Select.{is_no_child, polled_watch};
ghost use Rattle.aio_polling.specs.Selects.{PollAnswers};

use aio_base::Memory;
use aio_hub::{Polled, Poller};
use aio_select::{Pumps, Watching, has_item};
use aio_wire::{Item, Watch, WatchList};
use std::alloc::Global;

fn is_no_child(entry: &Watch) -> bool
    ensures { result ≡ is_no_child entry.now }
{
    match entry {
        Watch::Child { .. } => false,
        Watch::Server(_) | Watch::Making(_) | Watch::Conn { .. } | Watch::Extra => true,
    }
}

// Listeners, connections and the added requests alone.
fn without_children(alloc: Global, watch: &[Watch]) -> Result<WatchList, Memory>
    ensures { IfOk result (λ alone. alone ≡ polled_watch watch.now) }
{
    let mut alone = Vec::new(alloc);
    for entry in watch {
        if is_no_child(entry) {
            alone.push(*entry)?;
        }
    }
    Ok(WatchList::of(alone))
}

// How long a poll waits: not at all where there is an item already.
fn wait_for(has: bool, wait: Option<u64>) -> Option<u64>
    ensures { result ≡ (if has then Some 0 else wait) }
{
    if has { Some(0) } else { wait }
}

/// Asks the poller once, for all but children. It waits for nothing where there is an item already.
pub(crate) fn poll<P: Poller, Q: Pumps>(
    alloc: Global,
    poller: &mut P,
    pumps: &Q,
    kept: &[Item],
    wait: Option<u64>,
    watch: &Watching,
) -> Result<Polled, Memory>
    ensures polled { IfOk result (PollAnswers wait watch.now (Q.children pumps.now) kept.now
        (P.seen poller.old) (P.seen poller.new)) }
    ensures monotone { (P.seen poller.old).faults ≤ (P.seen poller.new).faults }
{
    let alone = without_children(alloc, watch.entries())?;
    let has = has_item(alloc, watch, pumps, kept)?;
    poller.poll(alloc, wait_for(has, wait), &alone)
}
