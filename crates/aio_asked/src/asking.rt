//! Each call.
ghost use Rattle.std.specs.Prelude.{◌≡◌, ◌≤◌, true, IfOk, OnErr};
ghost use Rattle.model_wire.specs.declared.call.Call.TheVariants as call;
ghost use Rattle.model_hub.specs.Others.{Got};
ghost use Rattle.model_hub.specs.Asked.{Asks, faults_in};
ghost use Rattle.aio_live.specs.Seen.{hub_seen};
ghost use Rattle.aio_asked.specs.Asked.{AsksOn, said_of, IsNoEnd, replied};

use crate::hub::Hub;
use aio_base::{Blob, Memory};
use aio_hub::{Launcher, Poller, is_datagram};
use aio_inbox::{Inbox, InboxName, Poster};
use aio_wire::{Answer, Call, Reply};
use std::alloc::Global;
use std::sync::Wait;

// An answer as a reply.
fn replied(answer: Result<Answer, Memory>) -> Result<Reply, Memory>
    ensures { result ≡ replied answer }
{
    match answer {
        Ok(answer) => Ok(Reply::Got(answer)),
        Err(Memory) => Err(Memory),
    }
}

impl<N: InboxName, R: Wait, P: Poller, L: Launcher<Inbox<N>, Poster<N>>> Hub<N, R, P, L> {
    // A feed of a copy of these bytes.
    #[tactic(auto, using(crate::proofs::Replying::same_faults))]
    fn feed(&mut self, alloc: Global, number: u32, bytes: &Blob) -> Result<Answer, Memory>
        ensures asks { let old = hub_seen (P.seen self.old.poller) (L.seen self.old.launcher) self.old.state in
            let new = hub_seen (P.seen self.new.poller) (L.seen self.new.launcher) self.new.state in
            IfOk result (λ answer. AsksOn (call.Feed number bytes.now) old new (Got answer)) }
        ensures posts { faults_in self.old.state.hub.taken ≤ faults_in self.new.state.hub.taken }
        ensures polled { (P.seen self.old.poller).faults ≤ (P.seen self.new.poller).faults }
        ensures launched { (L.seen self.old.launcher).faults ≤ (L.seen self.new.launcher).faults }
        ensures err { OnErr result (self.new.state.hub.starved ≡ true) }
    {
        let Ok(own) = Vec::from_slice(alloc, bytes.items()) else {
            self.state.starve();
            return Err(Memory);
        };
        Ok(self.state.feed(&self.rt, number, Blob::of(own)))
    }

    /// Asks any call. Once memory was refused, it is refused for ever.
    #[tactic(auto, using(crate::proofs::Replying::same_faults))]
    pub fn ask_any(&mut self, alloc: Global, call: &Call) -> Result<Reply, Memory>
        ensures asks { let old = hub_seen (P.seen self.old.poller) (L.seen self.old.launcher) self.old.state in
            let new = hub_seen (P.seen self.new.poller) (L.seen self.new.launcher) self.new.state in
            IfOk result (λ reply. Asks call.now old new (said_of reply)) }
        ensures goes_on { IfOk result IsNoEnd }
        ensures posts { faults_in self.old.state.hub.taken ≤ faults_in self.new.state.hub.taken }
        ensures polled { (P.seen self.old.poller).faults ≤ (P.seen self.new.poller).faults }
        ensures launched { (L.seen self.old.launcher).faults ≤ (L.seen self.new.launcher).faults }
        ensures err { OnErr result (self.new.state.hub.starved ≡ true) }
    {
        if self.state.is_starved() {
            return Err(Memory);
        }
        match call {
            Call::Select { wait, watch } => self.select(alloc, *wait, watch),
            Call::Listen(_)
            | Call::Accept(_)
            | Call::Connect(_)
            | Call::Recv(_)
            | Call::Send { .. }
            | Call::Shut(_)
            | Call::Close(_)
            | Call::CloseServer(_) => self.net(alloc, call),
            Call::Feed { child, bytes } => replied(self.feed(alloc, *child, bytes)),
            Call::End(child) => Ok(Reply::Got(self.state.end(&self.rt, *child))),
            Call::Kill(child) => Ok(Reply::Got(self.kill(*child))),
            Call::Launch(words) => replied(self.launch(alloc, words)),
            Call::Extra { code, .. } if is_datagram(*code) => self.net(alloc, call),
            Call::Extra { .. } => Ok(Reply::Got(self.state.extra(&self.rt))),
        }
    }
}
