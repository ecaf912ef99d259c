//! What starts children with their pumps.
ghost use Rattle.std.specs.Prelude.{◌≡◌, ◌≤◌, IfOk, OnErr};
ghost use Rattle.model_hub.specs.Told.{LauncherSeen, with_kill};
ghost use Rattle.aio_hub.specs.Launches.{LaunchAnswers, StartsNone};

use crate::kit::{PumpKit, PumpReports};
use aio_base::Memory;
use aio_wire::WordList;
use std::alloc::Global;

/// What a launch came to.
#[derive(Drop)]
pub enum Launched<Run> {
    /// The child runs, and so do its pumps.
    Running(Run),
    /// It could not be started: the launcher's count of faults rose.
    Refused,
}

/// What starts children with their pumps, ends children, and gives back what their pumps did. The
/// pumps post into an inbox of the type `Inbox`, each by a poster of the type `Poster`.
/// Source: `subprocess.py`, `Popen`; `unix_events.py`, `_UnixSubprocessTransport`.
pub trait Launcher<Inbox, Poster> {
    /// A child that was started, until it is taken in.
    type Run: Drop;

    /// The children that it started and those that it killed, where it tells them, and how often it
    /// failed.
    ghost seen: { Self → LauncherSeen };

    /// Starts a child with these words and its four pumps over this kit. Where it is refused, or memory
    /// is, the kit is given up.
    fn launch(
        &mut self,
        alloc: Global,
        words: &WordList,
        kit: PumpKit<Inbox, Poster>,
    ) -> Result<Launched<Self::Run>, Memory>
        ensures launched { IfOk result (LaunchAnswers words.now kit.child (seen self.old)
            (seen self.new)) }
        ensures none { OnErr result (StartsNone (seen self.old) (seen self.new)) }
        ensures monotone { (seen self.old).faults ≤ (seen self.new).faults };

    /// Ends a child, if it runs.
    fn kill(&mut self, child: u32)
        ensures killed { (seen self.new).kills ≡ with_kill child (seen self.old).kills }
        ensures launches { (seen self.new).launches ≡ (seen self.old).launches }
        ensures monotone { (seen self.old).faults ≤ (seen self.new).faults };

    /// Whether the pumps of a child have ended, so that `take_in`, which comes next, waits for none of
    /// them. A launcher whose pumps end with their launch needs no answer of its own.
    fn has_ended(&self, _run: &Self::Run) -> bool {
        true
    }

    /// What the pumps of a child did. It may wait for them.
    fn take_in(&mut self, run: Self::Run) -> PumpReports<Poster>
        ensures none { StartsNone (seen self.old) (seen self.new) }
        ensures monotone { (seen self.old).faults ≤ (seen self.new).faults };
}
