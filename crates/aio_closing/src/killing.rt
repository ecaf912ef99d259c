//! The kills at the end of a hub.
ghost use Rattle.std.specs.Prelude.{◌≡◌, ◌≤◌, ◌<◌, length};
ghost use Rattle.aio_roster.specs.Rosters.{running_of};
ghost use Rattle.aio_closing.specs.Kills.{running_in, kills_in, with_kills};
ghost use Rattle.aio_closing.specs.Passes.{KillsKth};

use aio_hub::Launcher;
use aio_inbox::{Inbox, InboxName, Poster};
use aio_roster::Roster;

// Kills the child with the k-th of the numbers of those that run, where its exit wasn't taken.
fn kill_one<N: InboxName, L: Launcher<Inbox<N>, Poster<N>>>(
    launcher: &mut L,
    roster: &Roster,
    k: usize,
)
    requires { k < length (running_of roster.now.children) }
    ensures kills { KillsKth k roster.now (L.seen launcher.old).kills (L.seen launcher.new).kills }
    ensures launches { (L.seen launcher.new).launches ≡ (L.seen launcher.old).launches }
    ensures monotone { (L.seen launcher.old).faults ≤ (L.seen launcher.new).faults }
{
    let child = roster.running_child(k);
    if !child.exited {
        launcher.kill(child.number);
    }
}

/// Kills each child that runs and whose exit wasn't taken, in order of launching.
pub(crate) fn kill_all<N: InboxName, L: Launcher<Inbox<N>, Poster<N>>>(
    launcher: &mut L,
    roster: &Roster,
)
    ensures kills { (L.seen launcher.new).kills
        ≡ with_kills (kills_in (running_in roster.now.children)) (L.seen launcher.old).kills }
    ensures launches { (L.seen launcher.new).launches ≡ (L.seen launcher.old).launches }
    ensures monotone { (L.seen launcher.old).faults ≤ (L.seen launcher.new).faults }
{
    let count = roster.count_running();
    for k in 0..count {
        kill_one(launcher, roster, k);
    }
}
