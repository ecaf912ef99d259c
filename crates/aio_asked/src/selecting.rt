//! A select.
ghost use Rattle.std.specs.Prelude.{◌≡◌, ◌≤◌, true, IfOk, OnErr};
ghost use Rattle.model_wire.specs.declared.call.Call.TheVariants as call;
ghost use Rattle.model_hub.specs.Asked.{faults_in};
ghost use Rattle.aio_live.specs.Seen.{hub_seen};
ghost use Rattle.aio_asked.specs.Asked.{AsksOn, said_of, IsNoEnd, reply_of};

use crate::hub::Hub;
use aio_base::Memory;
use aio_hub::{Launcher, Poller};
use aio_inbox::{Inbox, InboxName, Poster};
use aio_live::{Selected, select};
use aio_wire::{Answer, Reply, WatchList};
use std::alloc::Global;
use std::sync::Wait;

// A select as a reply: where memory was refused to a pump, it is refused.
fn reply_of(said: Selected) -> Result<Reply, Memory>
    ensures { result ≡ reply_of said }
{
    match said {
        Selected::Turn { now, items } => Ok(Reply::Got(Answer::Turn { now, items })),
        Selected::Faulted | Selected::Unpolled => Ok(Reply::Failed),
        Selected::Starved => Err(Memory),
    }
}

impl<N: InboxName, R: Wait, P: Poller, L: Launcher<Inbox<N>, Poster<N>>> Hub<N, R, P, L> {
    /// A select: it may wait for the poller, and for the pumps of a child that is over. Where a pump's
    /// source failed, or the poller did, it fails.
    pub fn select(
        &mut self,
        alloc: Global,
        wait: Option<u64>,
        watch: &WatchList,
    ) -> Result<Reply, Memory>
        ensures asks { let old = hub_seen (P.seen self.old.poller) (L.seen self.old.launcher) self.old.state in
            let new = hub_seen (P.seen self.new.poller) (L.seen self.new.launcher) self.new.state in
            IfOk result (λ reply. AsksOn (call.Select wait watch.now) old new (said_of reply)) }
        ensures goes_on { IfOk result IsNoEnd }
        ensures posts { faults_in self.old.state.hub.taken ≤ faults_in self.new.state.hub.taken }
        ensures polled { (P.seen self.old.poller).faults ≤ (P.seen self.new.poller).faults }
        ensures launched { (L.seen self.old.launcher).faults ≤ (L.seen self.new.launcher).faults }
        ensures err { OnErr result (self.new.state.hub.starved ≡ true) }
    {
        let said = select(
            &self.rt,
            alloc,
            &mut self.state,
            &mut self.poller,
            &mut self.launcher,
            wait,
            watch,
        )?;
        reply_of(said)
    }
}
