//! The pumps of all children are stopped.
ghost use Rattle.std.specs.Prelude.{◌≡◌, ◌<◌, true, not, length};
ghost use Rattle.model_hub.specs.Children.{was_given};
ghost use Rattle.model_hub.specs.declared.pump.Pump.TheVariants as pump;
ghost use Rattle.aio_serving.specs.Heads.{has_lane};
ghost use Rattle.aio_roster.specs.Rosters.{running_of};
ghost use Rattle.aio_commands.specs.Served.{HaveLanes};
ghost use Rattle.aio_closing.specs.Kills.{running_in};
ghost use Rattle.aio_closing.specs.Stops.{Stops, StopsLane, StopsChild, StopsKth, AreStopped};

use aio_roster::Roster;
use aio_serving::{Command, Heads};
use model_hub::{Child, Closing, Giving, Pump};
use std::sync::Wait;
use std::thread;

// Gives Stop to the lane of a pump, again while that is full. It may wait for the pump.
fn stop<R: Wait, H: Heads>(rt: &R, heads: &mut H, child: u32, pump: Pump)
    requires has { (H.seen heads.old).has child ≡ true }
    requires lane { has_lane pump ≡ true }
    ensures { Stops child pump (H.seen heads.old) (H.seen heads.new) }
{
    for _ in rt.forever() {
        match heads.give(rt, child, pump, Command::Stop) {
            Giving::Full => thread::yield_now(),
            Giving::Given | Giving::Spent => return,
        }
    }
    unreachable!()
}

// Whether Stop is given to the standard input of a child.
fn stops_stdin(closing: Closing) -> bool
    ensures { result ≡ not (was_given closing) }
{
    match closing {
        Closing::Open | Closing::Owed | Closing::Unclosable => true,
        Closing::Closed => false,
    }
}

// Gives Stop to the lane of a child's standard input, unless a Close was given to it.
fn stop_stdin<R: Wait, H: Heads>(rt: &R, heads: &mut H, child: &Child)
    requires { (H.seen heads.old).has child.now.number ≡ true }
    ensures { StopsLane child.now pump.Stdin (H.seen heads.old) (H.seen heads.new) }
{
    if !stops_stdin(child.closing) {
        return;
    }
    stop(rt, heads, child.number, Pump::Stdin);
}

// Gives Stop to each lane of a child but that to which a Close was given.
fn stop_child<R: Wait, H: Heads>(rt: &R, heads: &mut H, child: &Child)
    requires { (H.seen heads.old).has child.now.number ≡ true }
    ensures { StopsChild child.now (H.seen heads.old) (H.seen heads.new) }
{
    stop_stdin(rt, heads, child);
    stop(rt, heads, child.number, Pump::Out);
    stop(rt, heads, child.number, Pump::Errs);
}

// Stops the pumps of the child with the k-th of the numbers of those that run.
fn stop_one<R: Wait, H: Heads>(rt: &R, heads: &mut H, roster: &Roster, k: usize)
    requires running { k < length (running_of roster.now.children) }
    requires lanes { HaveLanes roster.now.children (H.seen heads.old) }
    ensures { StopsKth k roster.now (H.seen heads.old) (H.seen heads.new) }
{
    let child = roster.running_child(k);
    stop_child(rt, heads, &child);
}

/// Gives Stop to each lane of the children that run but those to which a Close was given. It may wait for
/// their pumps.
pub(crate) fn stop_all<R: Wait, H: Heads>(rt: &R, heads: &mut H, roster: &Roster)
    requires lanes { HaveLanes roster.now.children (H.seen heads.old) }
    ensures stopped { AreStopped (running_in roster.now.children) (H.seen heads.old) (H.seen heads.new) }
    ensures lanes { HaveLanes roster.now.children (H.seen heads.new) }
{
    let count = roster.count_running();
    for k in 0..count {
        stop_one(rt, heads, roster, k);
    }
}
