//! What each call gives to the lanes of all children before anything else.
ghost use Rattle.std.specs.Prelude.{◌≡◌, ◌<◌, ◌^◌, length};
ghost use Rattle.aio_roster.specs.Rosters.{Numbered, running_of};
ghost use Rattle.aio_roster.specs.Changes.{LeavesFree};
ghost use Rattle.aio_commands.specs.Served.{HaveLanes, ServesOne, ServesAll};

use aio_roster::Roster;
use aio_serving::{Heads, serve_child};
use aio_wire::Watch;
use std::sync::Wait;

// Serves the child with the k-th of the numbers of those that run.
fn serve_one<R: Wait, H: Heads>(
    rt: &R,
    heads: &mut H,
    roster: &mut Roster,
    watch: &[Watch],
    k: usize,
)
    requires running { k < length (running_of roster.old.children) }
    requires lanes { HaveLanes roster.old.children (H.seen heads.old) }
    requires noted { roster.old.noted < 2 ^ 62 }
    ensures served { ServesOne watch.now k roster.old.children roster.new.children
        (H.seen heads.old) (H.seen heads.new) }
    ensures numbered { Numbered roster.new.children }
    ensures lent { LeavesFree roster.old.children roster.new.children }
    ensures noted { roster.new.noted ≡ roster.old.noted }
{
    let child = roster.running_child(k);
    let new = serve_child(rt, heads, watch, child);
    roster.replace(new);
}

/// Gives each child a Go for each stream that is newly wanted, and again what found its lane full. A
/// call that is no select watches nothing. It looks at those that run alone, and waits for no pump.
pub fn serve<R: Wait, H: Heads>(rt: &R, heads: &mut H, roster: &mut Roster, watch: &[Watch])
    requires lanes { HaveLanes roster.old.children (H.seen heads.old) }
    requires noted { roster.old.noted < 2 ^ 62 }
    ensures served { ServesAll watch.now roster.old.children roster.new.children
        (H.seen heads.old) (H.seen heads.new) }
    ensures lanes { HaveLanes roster.new.children (H.seen heads.new) }
    ensures numbered_now { Numbered roster.new.children }
    ensures running { running_of roster.new.children ≡ running_of roster.old.children }
    ensures numbered { Numbered roster.old.children }
    ensures lent { LeavesFree roster.old.children roster.new.children }
    ensures noted { roster.new.noted ≡ roster.old.noted }
{
    let count = roster.count_running();
    for k in 0..count {
        serve_one(rt, heads, roster, watch, k);
    }
}
