//! A launcher of children whose pumps post when they are told to.
ghost use Rattle.std.specs.Prelude.{◌≡◌, ◌≤◌, IfOk, OnErr};
ghost use Rattle.aio_hub.specs.Launches.{LaunchAnswers, StartsNone};
ghost use Rattle.try_playing.specs.Seen.{untold};

use crate::pumps::reports_of;
use crate::stage::{Pumps, Stage};
use aio_base::Memory;
use aio_hub::{Launched, Launcher, PumpReports};
use aio_inbox::{Inbox, InboxName, Poster};
use aio_wire::WordList;
use std::alloc::Global;
use std::sync::{Arc, Wait};

/// Starts children of whom nothing is there but what their pumps work with. The launches with the listed numbers are
/// refused, counted from 1. It tells nothing of what it started and killed.
#[derive(Drop)]
pub struct PlayLauncher<N: InboxName, R> {
    pub rt: R,
    pub stage: Arc<Stage<N>, Global>,
    pub refused: Vec<u64>,
    pub made: u64,
    pub faults: u64,
}

impl<N: InboxName, R> PlayLauncher<N, R> {
    // Counts a launch, and says whether it is refused.
    fn refuses(&mut self) -> bool
        ensures { self.new.faults ≡ self.old.faults }
    {
        self.made = self.made.saturating_add(1);
        let made = self.made;
        self.refused.iter().any(|listed| *listed == made)
    }
}

impl<N: InboxName, R: Wait> Launcher<Inbox<N>, Poster<N>> for PlayLauncher<N, R> {
    /// Its number.
    type Run = u32;

    ghost seen = { λ launcher. untold launcher.faults };

    fn launch(
        &mut self,
        _alloc: Global,
        words: &WordList,
        kit: Pumps<N>,
    ) -> Result<Launched<u32>, Memory>
        ensures launched { IfOk result (LaunchAnswers words.now kit.child
            (untold self.old.faults) (untold self.new.faults)) }
        ensures none { OnErr result (StartsNone (untold self.old.faults)
            (untold self.new.faults)) }
        ensures monotone { self.old.faults ≤ self.new.faults }
    {
        if self.refuses() {
            self.faults = self.faults.saturating_add(1);
            return Ok(Launched::Refused);
        }
        let child = kit.child;
        self.stage.enter(&self.rt, kit)?;
        Ok(Launched::Running(child))
    }

    fn kill(&mut self, _child: u32) {}

    fn take_in(&mut self, run: u32) -> PumpReports<Poster<N>> {
        reports_of(self.stage.leave(&self.rt, run))
    }
}
