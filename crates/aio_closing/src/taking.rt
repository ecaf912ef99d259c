//! The runs of all children are taken in.
ghost use Rattle.std.specs.Prelude.{◌≡◌, ◌<◌, ◌≤◌, ◌+◌, ◌*◌, [], true, false, None, is_some, length, slice_set};
ghost use Rattle.aio_lanes.specs.Given.{lanes_at};
ghost use Rattle.aio_hub.specs.Launches.{StartsNone};
ghost use Rattle.aio_roster.specs.Rosters.{Numbered, running_of};
ghost use Rattle.aio_closing.specs.Kills.{running_in};
ghost use Rattle.aio_closing.specs.Ends.{AreEnds, TellsKth, HaveRuns, SettlesMore};

use crate::telling::{Telling, tell_all};
use aio_hub::Launcher;
use aio_inbox::{Inbox, InboxName, Post, Poster};
use aio_lane::Head;
use aio_lanes::{ChildLanes, Lanes};
use aio_postbox::Postbox;
use aio_roster::Roster;
use std::sync::Wait;
use std::thread;

fn forget_head(_head: Head) {}

// The run of a child, of which the lanes are given up.
fn run_of<Run>(lanes: ChildLanes<Run>) -> Run {
    let ChildLanes {
        stdin,
        out,
        errs,
        run,
    } = lanes;
    forget_head(stdin);
    forget_head(out);
    forget_head(errs);
    run
}

// The run of the child with this number, which has lanes.
fn taken<Run: Drop>(lanes: &mut Lanes<Run>, number: u32) -> Run
    requires { is_some (lanes_at lanes.old number) ≡ true }
    ensures { lanes.new ≡ slice_set lanes.old number None }
{
    match lanes.remove(number) {
        Some(own) => run_of(own),
        None => unreachable!(),
    }
}

fn forget_post(_post: Post) {}

// Takes a post, of which nobody is told, or waits a little where there is none.
fn take_post<N: InboxName, R: Wait>(rt: &R, postbox: &mut Postbox<N>)
    ensures { postbox.new.settled ≡ postbox.old.settled }
{
    match postbox.take(rt) {
        Some(post) => forget_post(post),
        None => thread::yield_now(),
    }
}

// Takes posts until the pumps of a run have ended: one that finds the inbox full waits for room.
fn make_room<N: InboxName, R: Wait, L: Launcher<Inbox<N>, Poster<N>>>(
    rt: &R,
    launcher: &L,
    postbox: &mut Postbox<N>,
    run: &L::Run,
)
    ensures { postbox.new.settled ≡ postbox.old.settled }
{
    for _ in rt.forever() {
        if launcher.has_ended(run) {
            return;
        }
        take_post(rt, postbox);
    }
    unreachable!()
}

// Takes in the child with the k-th of the numbers of those that run. It may wait for its pumps.
fn take_one<N: InboxName, R: Wait, L: Launcher<Inbox<N>, Poster<N>>>(
    rt: &R,
    launcher: &mut L,
    roster: &Roster,
    lanes: &mut Lanes<L::Run>,
    postbox: &mut Postbox<N>,
    telling: &mut Telling,
    k: usize,
)
    requires running { k < length (running_of roster.now.children) }
    requires numbered { Numbered roster.now.children }
    requires runs { HaveRuns k roster.now lanes.old }
    ensures told { TellsKth k roster.now telling.old telling.new }
    ensures runs { HaveRuns (k + 1) roster.now lanes.new }
    ensures settled { SettlesMore 4 postbox.old postbox.new }
    ensures none { StartsNone (L.seen launcher.old) (L.seen launcher.new) }
    ensures monotone { (L.seen launcher.old).faults ≤ (L.seen launcher.new).faults }
{
    let child = roster.running_child(k);
    let run = taken(lanes, child.number);
    make_room(rt, launcher, postbox, &run);
    let reports = launcher.take_in(run);
    tell_all(rt, postbox, telling, child.number, reports);
}

/// Takes in all children that run, in order of launching, and tells how their pumps ended. It may wait
/// for the pumps, and takes their posts meanwhile.
pub(crate) fn take_all<N: InboxName, R: Wait, L: Launcher<Inbox<N>, Poster<N>>>(
    rt: &R,
    launcher: &mut L,
    roster: &Roster,
    lanes: &mut Lanes<L::Run>,
    postbox: &mut Postbox<N>,
    telling: &mut Telling,
)
    requires runs { HaveRuns 0 roster.now lanes.old }
    requires begin { telling.old.ends.items ≡ [] }
    ensures told { telling.new.short ≡ false
        → AreEnds (running_in roster.now.children) telling.new.ends.items }
    ensures settled { SettlesMore (4 * length (running_in roster.now.children)) postbox.old
        postbox.new }
    ensures none { StartsNone (L.seen launcher.old) (L.seen launcher.new) }
    ensures monotone { (L.seen launcher.old).faults ≤ (L.seen launcher.new).faults }
{
    let count = roster.count_running();
    for k in 0..count {
        take_one(rt, launcher, roster, lanes, postbox, telling, k);
    }
}
