//! The end of what a hub keeps.
ghost use Rattle.std.specs.Prelude.{◌≡◌, ◌≤◌, IfOk};
ghost use Rattle.aio_closing.specs.Kills.{running_in, kills_in, with_kills};
ghost use Rattle.aio_closing.specs.Ends.{AreEnds};

use crate::pumped::Pumped;
use crate::state::State;
use aio_base::Memory;
use aio_closing::close;
use aio_hub::{Launcher, PumpEnd};
use aio_inbox::{Inbox, InboxName, Poster};
use aio_wire::Item;
use std::alloc::Global;
use std::sync::Wait;

fn forget_items(_items: Vec<Item>) {}

impl<N: InboxName, Run: Drop> State<N, Run> {
    /// The end of a hub: it kills each child that runs and whose exit wasn't taken, gives Stop to each
    /// lane to which no Close was given, takes in the runs, and gives all posters back for good. It tells
    /// how the pumps of each run ended, by child: those of stdin, out, errs and exit. It may wait for the
    /// pumps. Where memory for the list is refused, it does all this as well.
    pub fn close<R: Wait, L: Launcher<Inbox<N>, Poster<N>, Run = Run>>(
        self,
        rt: &R,
        alloc: Global,
        launcher: &mut L,
    ) -> Result<Vec<PumpEnd>, Memory>
        ensures kills { (L.seen launcher.new).kills
            ≡ with_kills (kills_in (running_in self.hub.children)) (L.seen launcher.old).kills }
        ensures launches { (L.seen launcher.new).launches ≡ (L.seen launcher.old).launches }
        ensures monotone { (L.seen launcher.old).faults ≤ (L.seen launcher.new).faults }
        ensures ends { IfOk result (λ told. AreEnds (running_in self.hub.children) told.items) }
    {
        let State {
            pumped,
            mut lanes,
            kept,
            free,
            starved: _,
        } = self;
        forget_items(kept);
        let Pumped {
            roster,
            mut postbox,
        } = pumped;
        close(rt, alloc, launcher, &roster, &mut lanes, &mut postbox, free)
    }
}
