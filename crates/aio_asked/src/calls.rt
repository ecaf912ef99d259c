//! The calls of the poller and the launcher.
ghost use Rattle.std.specs.Prelude.{◌≡◌, ◌≤◌, true, IfOk, OnErr};
ghost use Rattle.model_wire.specs.declared.answer.Answer.TheVariants as answer;
ghost use Rattle.model_wire.specs.declared.call.Call.TheVariants as call;
ghost use Rattle.model_hub.specs.Others.{Got};
ghost use Rattle.model_hub.specs.Asked.{faults_in};
ghost use Rattle.model_hub.specs.Told.{is_socket};
ghost use Rattle.aio_live.specs.Seen.{hub_seen};
ghost use Rattle.aio_asked.specs.Asked.{AsksOn, said_of, IsNoEnd};

use crate::hub::Hub;
use aio_base::Memory;
use aio_hub::{Launcher, Poller};
use aio_inbox::{Inbox, InboxName, Poster};
use aio_wire::{Answer, Call, Reply, WordList};
use std::alloc::Global;
use std::sync::Wait;

impl<N: InboxName, R: Wait, P: Poller, L: Launcher<Inbox<N>, Poster<N>>> Hub<N, R, P, L> {
    /// A kill: the launcher ends the child, if it runs.
    pub fn kill(&mut self, number: u32) -> Answer
        ensures answer { result ≡ answer.Done }
        ensures asks { let old = hub_seen (P.seen self.old.poller) (L.seen self.old.launcher) self.old.state in
            let new = hub_seen (P.seen self.new.poller) (L.seen self.new.launcher) self.new.state in
            AsksOn (call.Kill number) old new (Got answer.Done) }
        ensures posts { faults_in self.old.state.hub.taken ≤ faults_in self.new.state.hub.taken }
        ensures polled { (P.seen self.old.poller).faults ≤ (P.seen self.new.poller).faults }
        ensures launched { (L.seen self.old.launcher).faults ≤ (L.seen self.new.launcher).faults }
    {
        self.state.serve(&self.rt, &[]);
        self.launcher.kill(number);
        Answer::Done
    }

    /// A call on a listener, a connection or an endpoint of datagrams: the poller is asked once, and its
    /// reply is unchanged.
    pub fn net(&mut self, alloc: Global, call: &Call) -> Result<Reply, Memory>
        requires { is_socket call.now ≡ true }
        ensures asks { let old = hub_seen (P.seen self.old.poller) (L.seen self.old.launcher) self.old.state in
            let new = hub_seen (P.seen self.new.poller) (L.seen self.new.launcher) self.new.state in
            IfOk result (λ reply. AsksOn call.now old new (said_of reply)) }
        ensures goes_on { IfOk result IsNoEnd }
        ensures posts { faults_in self.old.state.hub.taken ≤ faults_in self.new.state.hub.taken }
        ensures polled { (P.seen self.old.poller).faults ≤ (P.seen self.new.poller).faults }
        ensures launched { (L.seen self.old.launcher).faults ≤ (L.seen self.new.launcher).faults }
        ensures err { OnErr result (self.new.state.hub.starved ≡ true) }
    {
        self.state.serve(&self.rt, &[]);
        match self.poller.net(alloc, call) {
            Ok(reply) => Ok(reply),
            Err(Memory) => {
                self.state.starve();
                Err(Memory)
            }
        }
    }

    /// A launch: `child` where the launcher started one with these words, on four seats that are lent to
    /// it; `refused` where no four are free, no number is left, or the launcher refused it.
    pub fn launch(&mut self, alloc: Global, words: &WordList) -> Result<Answer, Memory>
        ensures asks { let old = hub_seen (P.seen self.old.poller) (L.seen self.old.launcher) self.old.state in
            let new = hub_seen (P.seen self.new.poller) (L.seen self.new.launcher) self.new.state in
            IfOk result (λ answer. AsksOn (call.Launch words.now) old new (Got answer)) }
        ensures posts { faults_in self.old.state.hub.taken ≤ faults_in self.new.state.hub.taken }
        ensures polled { (P.seen self.old.poller).faults ≤ (P.seen self.new.poller).faults }
        ensures launched { (L.seen self.old.launcher).faults ≤ (L.seen self.new.launcher).faults }
        ensures err { OnErr result (self.new.state.hub.starved ≡ true) }
    {
        self.state
            .launch(&self.rt, alloc, &mut self.launcher, words)
    }
}
