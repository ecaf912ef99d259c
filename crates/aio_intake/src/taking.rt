//! Taking in: a pass over the children that run.
ghost use Rattle.std.specs.Prelude.{◌≡◌, ◌<◌, ◌≤◌, ◌+◌, ◌-◌, ◌^◌, ◌++◌, true, None, IfOk, OnErr, is_some, length, slice_set, option_to_list, if◌then◌else◌};
ghost use Rattle.std.specs.VecDeque.{deque_len, deque_capacity};
ghost use Rattle.model_hub.specs.declared.child.Stay.TheVariants.{Holding, Gone};
ghost use Rattle.aio_hub.specs.Launches.{StartsNone};
ghost use Rattle.aio_lanes.specs.Given.{seen_of, lanes_at};
ghost use Rattle.aio_postbox.specs.Fours.{seats_in};
ghost use Rattle.aio_roster.specs.Rosters.{Numbered, running_of};
ghost use Rattle.aio_commands.specs.Served.{HaveLanes};
ghost use Rattle.aio_intake.specs.Homes.{KeepsPosts};
ghost use Rattle.aio_intake.specs.Taken.{AreInHand, TakesKth, TakesNothing, TakesIn, KeepsLanes};

use crate::homing::{come_home, four_of};
use aio_base::Memory;
use aio_hub::Launcher;
use aio_inbox::{Inbox, InboxName, Poster};
use aio_lane::Head;
use aio_lanes::{ChildLanes, Lanes};
use aio_postbox::{Four, Postbox};
use aio_roster::Roster;
use aio_serving::is_over;
use model_hub::Stay;
use std::collections::VecDeque;

fn forget_head(_head: Head) {}

// The run of a child, of which the lanes are given up.
fn run_of<Run>(lanes: ChildLanes<Run>) -> Run
    ensures { result ≡ lanes.run }
{
    let ChildLanes {
        stdin,
        out,
        errs,
        run,
    } = lanes;
    forget_head(stdin);
    forget_head(out);
    forget_head(errs);
    run
}

// What the pumps of a child give back, of which the lanes are given up. It may wait for the pumps.
fn report<N: InboxName, L: Launcher<Inbox<N>, Poster<N>>>(
    launcher: &mut L,
    lanes: &mut Lanes<L::Run>,
    number: u32,
) -> Four<N>
    requires { is_some (lanes_at lanes.old number) ≡ true }
    ensures gives_up { lanes.new ≡ slice_set lanes.old number None }
    ensures none { StartsNone (L.seen launcher.old) (L.seen launcher.new) }
    ensures monotone { (L.seen launcher.old).faults ≤ (L.seen launcher.new).faults }
{
    match lanes.remove(number) {
        Some(lanes) => four_of(launcher.take_in(run_of(lanes))),
        None => unreachable!(),
    }
}

// Four posters that came home may be lent again: the child is gone. Else it holds its seats.
fn lend_again<N: InboxName>(free: &mut VecDeque<Four<N>>, four: Option<Four<N>>) -> Stay
    requires { deque_len free.old < deque_capacity free.old }
    ensures stay { result ≡ (if is_some four then Gone else Holding) }
    ensures back { free.new.items ≡ free.old.items ++ option_to_list four }
{
    match four {
        Some(four) => {
            free.push_back_reserved(four);
            Stay::Gone
        }
        None => Stay::Holding,
    }
}

// Takes in the child with the k-th of the numbers of those that run, if it is over.
fn take_in_kth<N: InboxName, R, L: Launcher<Inbox<N>, Poster<N>>>(
    rt: &R,
    launcher: &mut L,
    lanes: &mut Lanes<L::Run>,
    roster: &mut Roster,
    postbox: &mut Postbox<N>,
    free: &mut VecDeque<Four<N>>,
    k: usize,
) -> Result<bool, Memory>
    requires running { k < length (running_of roster.old.children) }
    requires lanes { HaveLanes roster.old.children (seen_of lanes.old) }
    ensures takes { IfOk result (λ did. TakesKth did postbox.old.taken k roster.old.children
        roster.new.children (seats_in free.old.items) (seats_in free.new.items) lanes.old
        lanes.new) }
    ensures err { OnErr result (TakesNothing roster.old.children roster.new.children
        (seats_in free.old.items) (seats_in free.new.items) lanes.old lanes.new) }
    ensures hand { AreInHand roster.old.children (seats_in free.old.items)
        → AreInHand roster.new.children (seats_in free.new.items) }
    ensures keeps { KeepsPosts postbox.old postbox.new }
    ensures noted { roster.new.noted ≡ roster.old.noted }
    ensures none { StartsNone (L.seen launcher.old) (L.seen launcher.new) }
    ensures monotone { (L.seen launcher.old).faults ≤ (L.seen launcher.new).faults }
{
    let child = roster.running_child(k);
    if !is_over(&child) {
        return Ok(false);
    }
    free.reserve(1)?;
    let four = report(launcher, lanes, child.number);
    let home = come_home(rt, postbox, &child.seats, four);
    let stay = lend_again(free, home);
    roster.leave(k, stay);
    Ok(true)
}

// The place of the next of those that run: the same, where the one there runs no longer.
fn next_place(k: usize, gone: bool) -> usize
    requires { k < 2 ^ 64 - 1 }
    ensures { result ≡ (if gone then k else k + 1) }
{
    if gone { k } else { k + 1 }
}

/// Takes in each child that is over: its lanes are given up, the launcher gives its pumps' reports, and
/// where all four posters came home they may be lent again. It is one pass over the children that run.
/// It may wait for the pumps of a child that is over. After want of memory some may have been taken in.
pub fn take_in<N: InboxName, R, L: Launcher<Inbox<N>, Poster<N>>>(
    rt: &R,
    launcher: &mut L,
    lanes: &mut Lanes<L::Run>,
    roster: &mut Roster,
    postbox: &mut Postbox<N>,
    free: &mut VecDeque<Four<N>>,
) -> Result<(), Memory>
    requires lanes { HaveLanes roster.old.children (seen_of lanes.old) }
    requires hand { AreInHand roster.old.children (seats_in free.old.items) }
    ensures takes { IfOk result (λ _. TakesIn postbox.old.taken roster.old.children
        roster.new.children (seats_in free.old.items) (seats_in free.new.items)) }
    ensures keeps { KeepsLanes roster.new.children lanes.old lanes.new }
    ensures numbered { Numbered roster.new.children }
    ensures lanes { HaveLanes roster.new.children (seen_of lanes.new) }
    ensures hand { AreInHand roster.new.children (seats_in free.new.items) }
    ensures posts { KeepsPosts postbox.old postbox.new }
    ensures noted { roster.new.noted ≡ roster.old.noted }
    ensures none { StartsNone (L.seen launcher.old) (L.seen launcher.new) }
    ensures monotone { (L.seen launcher.old).faults ≤ (L.seen launcher.new).faults }
{
    let count = roster.count_running();
    let mut k = 0;
    for _n in 0..count {
        let gone = take_in_kth(rt, launcher, lanes, roster, postbox, free, k)?;
        k = next_place(k, gone);
    }
    Ok(())
}
