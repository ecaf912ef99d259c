//! The end of a hub.
ghost use Rattle.std.specs.Prelude.{◌≡◌, ◌≤◌, ◌+◌, ◌*◌, length, IfOk};
ghost use Rattle.aio_lanes.specs.Given.{seen_of};
ghost use Rattle.aio_commands.specs.Served.{HaveLanes};
ghost use Rattle.aio_closing.specs.Kills.{running_in, kills_in, with_kills};
ghost use Rattle.aio_closing.specs.Ends.{AreEnds, SettlesMore, IfTold};

use crate::killing::kill_all;
use crate::settling::settle_all;
use crate::stopping::stop_all;
use crate::taking::take_all;
use crate::telling::Telling;
use aio_base::Memory;
use aio_hub::{Launcher, PumpEnd};
use aio_inbox::{Inbox, InboxName, Poster};
use aio_lanes::Lanes;
use aio_postbox::{Four, Postbox};
use aio_roster::Roster;
use std::alloc::Global;
use std::collections::VecDeque;
use std::sync::Wait;

fn forget_ends(_ends: Vec<PumpEnd>) {}

// What was told, unless memory was refused to it.
fn told(telling: Telling) -> Result<Vec<PumpEnd>, Memory>
    ensures { IfTold telling result }
{
    let Telling { ends, short } = telling;
    if short {
        forget_ends(ends);
        return Err(Memory);
    }
    Ok(ends)
}

/// Kills each child that runs and whose exit wasn't taken, gives Stop to each lane to which no Close was
/// given, takes in the runs, and gives all posters back for good: those of the runs, and these. It tells
/// how the pumps of each run ended, by child: those of stdin, out, errs and exit. It may wait for the
/// pumps. Where memory for the list is refused, it does all this as well.
pub fn close<N: InboxName, R: Wait, L: Launcher<Inbox<N>, Poster<N>>>(
    rt: &R,
    alloc: Global,
    launcher: &mut L,
    roster: &Roster,
    lanes: &mut Lanes<L::Run>,
    postbox: &mut Postbox<N>,
    free: VecDeque<Four<N>>,
) -> Result<Vec<PumpEnd>, Memory>
    requires { HaveLanes roster.now.children (seen_of lanes.old) }
    ensures kills { (L.seen launcher.new).kills
        ≡ with_kills (kills_in (running_in roster.now.children)) (L.seen launcher.old).kills }
    ensures launches { (L.seen launcher.new).launches ≡ (L.seen launcher.old).launches }
    ensures monotone { (L.seen launcher.old).faults ≤ (L.seen launcher.new).faults }
    ensures ends { IfOk result (λ told. AreEnds (running_in roster.now.children) told.items) }
    ensures settled { SettlesMore
        (4 * length (running_in roster.now.children) + 4 * length free.items) postbox.old
        postbox.new }
{
    kill_all(launcher, roster);
    stop_all(rt, lanes, roster);
    let mut telling = Telling {
        ends: Vec::new(alloc),
        short: false,
    };
    take_all(rt, launcher, roster, lanes, postbox, &mut telling);
    settle_all(rt, postbox, free);
    told(telling)
}
