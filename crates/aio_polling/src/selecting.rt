//! A select.
ghost use Rattle.std.specs.Prelude.{◌≡◌, ◌≤◌, true, IfOk};
ghost use Rattle.model_wire.specs.Fits.{turn_fits};
ghost use Rattle.model_hub.specs.Select.{polled_watch};
ghost use Rattle.aio_select.specs.Answered.{Notes};
ghost use Rattle.aio_polling.specs.Selects.{hub_of, hub_after, Gathers, Selects};

use crate::copying::copies_of;
use crate::ending::{Ended, Selected, end};
use crate::polling::poll;
use aio_base::Memory;
use aio_hub::{Polled, Poller};
use aio_select::{Answering, Pumps, Watching, add_stdins, gather, offer_all};
use aio_wire::{Item, ItemList, Watch};
use std::alloc::Global;
use std::sync::Wait;

// What a select makes of what came of the poller, with what was kept, what is so of standard inputs,
// and posts.
fn gather_all<R: Wait, Q: Pumps>(
    rt: &R,
    alloc: Global,
    watch: &Watching,
    pumps: &mut Q,
    kept: Vec<Item>,
    now: u64,
    sockets: &ItemList,
) -> Result<Ended, Memory>
    requires { turn_fits (polled_watch watch.now) now sockets.now ≡ true }
    ensures gathers { IfOk result (λ ended. Gathers watch.now now sockets.now (hub_of (Q.children
        pumps.old) kept.items (Q.taken pumps.old)) (Q.nones pumps.old) ended.said (hub_after
        (Q.children pumps.new) ended.kept.items (Q.taken pumps.new) ended.said) (Q.nones
        pumps.new)) }
    ensures noted { Notes (Q.children pumps.old) (Q.taken pumps.old) (Q.children pumps.new)
        (Q.taken pumps.new) }
{
    let items = copies_of(alloc, sockets)?;
    let mut answering = Answering::new(alloc, items)?;
    offer_all(watch, kept, &mut answering)?;
    add_stdins(watch, pumps, &mut answering)?;
    let halt = gather(rt, watch, pumps, &mut answering)?;
    end(now, halt, answering)
}

/// A select over these pumps, where these items were kept: it polls once, and takes posts until there
/// is enough or there are none. It may wait for the poller, but for no post. After want of memory some
/// posts may have been taken, and what was kept is lost.
pub fn select<R: Wait, P: Poller, Q: Pumps>(
    rt: &R,
    alloc: Global,
    poller: &mut P,
    pumps: &mut Q,
    kept: Vec<Item>,
    wait: Option<u64>,
    watch: &[Watch],
) -> Result<Ended, Memory>
    ensures selects { IfOk result (λ ended. Selects wait watch.now (hub_of (Q.children pumps.old)
        kept.items (Q.taken pumps.old)) (Q.nones pumps.old) (P.seen poller.old) ended.said (hub_after
        (Q.children pumps.new) ended.kept.items (Q.taken pumps.new) ended.said) (Q.nones
        pumps.new) (P.seen poller.new)) }
    ensures noted { Notes (Q.children pumps.old) (Q.taken pumps.old) (Q.children pumps.new)
        (Q.taken pumps.new) }
    ensures monotone { (P.seen poller.old).faults ≤ (P.seen poller.new).faults }
{
    let watching = Watching::new(alloc, watch)?;
    match poll(alloc, poller, pumps, kept.as_slice(), wait, &watching)? {
        Polled::Ready { now, items } => gather_all(rt, alloc, &watching, pumps, kept, now, &items),
        Polled::Failed => Ok(Ended {
            said: Selected::Unpolled,
            kept,
        }),
    }
}
