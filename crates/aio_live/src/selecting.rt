//! The select of a hub.
ghost use Rattle.std.specs.Prelude.{◌≡◌, ◌≤◌, false, true, IfOk, OnErr};
ghost use Rattle.aio_hub.specs.Launches.{StartsNone};
ghost use Rattle.aio_polling.specs.Selects.{is_starved};
ghost use Rattle.aio_live.specs.Selecting.{SelectsItems, TakesMore, TakesAfter, TakesOver, SelectAsks, AnswerFits, NothingIsLost};

use crate::state::State;
use aio_base::Memory;
use aio_hub::{Launcher, Poller};
use aio_inbox::{Inbox, InboxName, Poster};
use aio_intake::take_in;
use aio_polling::{Ended, Selected};
use aio_wire::{Watch, WatchList};
use std::alloc::Global;
use std::sync::Wait;

fn is_starved(said: &Selected) -> bool
    ensures { result ≡ is_starved said.now }
{
    match said {
        Selected::Turn { .. } | Selected::Faulted | Selected::Unpolled => false,
        Selected::Starved => true,
    }
}

fn forget_selected(_said: Selected) {}

// The poll and the posts of a select. After want of memory it is refused for ever.
fn select_items<N: InboxName, Run, R: Wait, P: Poller>(
    rt: &R,
    alloc: Global,
    state: &mut State<N, Run>,
    poller: &mut P,
    wait: Option<u64>,
    watch: &[Watch],
) -> Result<Selected, Memory>
    ensures selects { IfOk result (λ said. SelectsItems wait watch.now (P.seen poller.old) (P.seen
        poller.new) said state.old state.new) }
    ensures starved { OnErr result (state.new.hub.starved ≡ true) }
    ensures posts { TakesMore state.old.hub.taken state.new.hub.taken }
    ensures monotone { (P.seen poller.old).faults ≤ (P.seen poller.new).faults }
{
    let kept = std::mem::replace(&mut state.kept, Vec::new(alloc));
    match aio_polling::select(rt, alloc, poller, &mut state.pumped, kept, wait, watch) {
        Ok(Ended { said, kept }) => {
            state.kept = kept;
            state.starved = is_starved(&said) || state.starved;
            Ok(said)
        }
        Err(Memory) => {
            state.starved = true;
            Err(Memory)
        }
    }
}

// Takes in each child that is over. After want of memory it is refused for ever.
fn take_in_over<N: InboxName, R, L: Launcher<Inbox<N>, Poster<N>>>(
    rt: &R,
    state: &mut State<N, L::Run>,
    launcher: &mut L,
) -> Result<(), Memory>
    ensures takes { IfOk result (λ _. TakesOver state.old state.new) }
    ensures starved { OnErr result (state.new.hub.starved ≡ true) }
    ensures posts { state.new.hub.taken ≡ state.old.hub.taken }
    ensures none { StartsNone (L.seen launcher.old) (L.seen launcher.new) }
    ensures monotone { (L.seen launcher.old).faults ≤ (L.seen launcher.new).faults }
{
    match take_in(
        rt,
        launcher,
        &mut state.lanes,
        &mut state.pumped.roster,
        &mut state.pumped.postbox,
        &mut state.free,
    ) {
        Ok(()) => Ok(()),
        Err(Memory) => {
            state.starved = true;
            Err(Memory)
        }
    }
}

// The same, unless the poller failed.
fn take_in_after<N: InboxName, R, L: Launcher<Inbox<N>, Poster<N>>>(
    rt: &R,
    state: &mut State<N, L::Run>,
    launcher: &mut L,
    said: &Selected,
) -> Result<(), Memory>
    ensures takes { IfOk result (λ _. TakesAfter said.now state.old state.new) }
    ensures starved { OnErr result (state.new.hub.starved ≡ true) }
    ensures posts { state.new.hub.taken ≡ state.old.hub.taken }
    ensures none { StartsNone (L.seen launcher.old) (L.seen launcher.new) }
    ensures monotone { (L.seen launcher.old).faults ≤ (L.seen launcher.new).faults }
{
    match said {
        Selected::Turn { .. } | Selected::Faulted | Selected::Starved => {
            take_in_over(rt, state, launcher)
        }
        Selected::Unpolled => Ok(()),
    }
}

/// A select: Gos of streams that are newly wanted, one poll, posts as long as there is room for more,
/// and the children that are over are taken in. It may wait for the poller and for the pumps of a child
/// that is over, but for no post. After want of memory it is refused for ever.
pub fn select<N: InboxName, R: Wait, P: Poller, L: Launcher<Inbox<N>, Poster<N>>>(
    rt: &R,
    alloc: Global,
    state: &mut State<N, L::Run>,
    poller: &mut P,
    launcher: &mut L,
    wait: Option<u64>,
    watch: &WatchList,
) -> Result<Selected, Memory>
    ensures asks { state.old.hub.starved ≡ false → IfOk result (SelectAsks wait watch.now (P.seen
        poller.old) (P.seen poller.new) (L.seen launcher.old) (L.seen launcher.new) state.old
        state.new) }
    ensures fits { IfOk result (AnswerFits watch.now) }
    ensures lost { IfOk result (NothingIsLost state.old state.new) }
    ensures starving { IfOk result (λ said. is_starved said ≡ true
        → state.new.hub.starved ≡ true) }
    ensures starved { OnErr result (state.new.hub.starved ≡ true) }
    ensures posts { TakesMore state.old.hub.taken state.new.hub.taken }
    ensures polled { (P.seen poller.old).faults ≤ (P.seen poller.new).faults }
    ensures launched { (L.seen launcher.old).faults ≤ (L.seen launcher.new).faults }
{
    state.serve(rt, watch.items());
    let said = select_items(rt, alloc, state, poller, wait, watch.items())?;
    match take_in_after(rt, state, launcher, &said) {
        Ok(()) => Ok(said),
        Err(Memory) => {
            forget_selected(said);
            Err(Memory)
        }
    }
}
