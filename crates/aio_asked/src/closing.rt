//! The end of a hub.
ghost use Rattle.std.specs.Prelude.{◌≡◌, ◌≤◌, IfOk};
ghost use Rattle.aio_closing.specs.Kills.{running_in, kills_in, with_kills};
ghost use Rattle.aio_closing.specs.Ends.{AreEnds};

use crate::hub::{Hub, forget};
use aio_base::Memory;
use aio_hub::{Launcher, PumpEnd};
use aio_inbox::{Inbox, InboxName, Poster};
use std::alloc::Global;
use std::sync::Wait;

/// What is left of a hub that ended: how the pumps of each run ended, by child, those of stdin, out,
/// errs and exit; and its launcher.
#[derive(Drop)]
pub struct Finished<L> {
    pub told: Result<Vec<PumpEnd>, Memory>,
    pub launcher: L,
}

// Lets go what a hub stood on but its launcher.
fn forget_others<R: Drop, P: Drop>(_rt: R, _poller: P) {}

impl<N: InboxName, R: Wait + Drop, P: Drop, L: Launcher<Inbox<N>, Poster<N>>> Hub<N, R, P, L> {
    /// Ends a hub: it kills each child that runs and whose exit wasn't taken, stops the pumps, takes in
    /// the runs, and gives all posters back for good. It may wait for the pumps. Where memory for the
    /// list is refused, it does all this as well.
    pub fn finish(self, alloc: Global) -> Finished<L>
        ensures told { IfOk result.told (λ told. AreEnds (running_in self.state.hub.children)
            told.items) }
        ensures kills { (L.seen result.launcher).kills
            ≡ with_kills (kills_in (running_in self.state.hub.children)) (L.seen self.launcher).kills }
        ensures launches { (L.seen result.launcher).launches ≡ (L.seen self.launcher).launches }
        ensures monotone { (L.seen self.launcher).faults ≤ (L.seen result.launcher).faults }
    {
        let Hub {
            rt,
            state,
            poller,
            mut launcher,
        } = self;
        let told = state.close(&rt, alloc, &mut launcher);
        forget_others(rt, poller);
        Finished { told, launcher }
    }
}

impl<N: InboxName, R: Wait + Drop, P: Drop, L: Launcher<Inbox<N>, Poster<N>> + Drop> Hub<
    N,
    R,
    P,
    L,
> {
    /// The same, and lets the launcher go.
    pub fn close(self, alloc: Global) -> Result<Vec<PumpEnd>, Memory>
        ensures { IfOk result (λ told. AreEnds (running_in self.state.hub.children) told.items) }
    {
        let Hub {
            rt,
            state,
            poller,
            mut launcher,
        } = self;
        let told = state.close(&rt, alloc, &mut launcher);
        forget(rt, poller, launcher);
        told
    }
}
