//! The Close of a child's standard input.
ghost use Rattle.std.specs.Prelude.{◌≡◌, ◌<◌, ◌^◌};
ghost use Rattle.aio_roster.specs.Rosters.{Numbered, running_of};
ghost use Rattle.aio_roster.specs.Changes.{LeavesFree};
ghost use Rattle.aio_commands.specs.Served.{HaveLanes};
ghost use Rattle.aio_commands.specs.Fed.{EndsAt};
ghost use Rattle.aio_commands.specs.Commands.{EndCall};

use crate::serving::serve;
use aio_roster::Roster;
use aio_serving::{Heads, end_child};
use std::sync::Wait;

// Closes the standard input of the child with this number, where that wasn't asked for before.
fn end_at<R: Wait, H: Heads>(rt: &R, heads: &mut H, roster: &mut Roster, number: u32)
    requires { HaveLanes roster.old.children (H.seen heads.old) }
    ensures ended { EndsAt number roster.old.children roster.new.children (H.seen heads.old)
        (H.seen heads.new) }
    ensures lanes { HaveLanes roster.new.children (H.seen heads.new) }
    ensures numbered_now { Numbered roster.new.children }
    ensures running { running_of roster.new.children ≡ running_of roster.old.children }
    ensures lent { LeavesFree roster.old.children roster.new.children }
    ensures noted { roster.new.noted ≡ roster.old.noted }
{
    let Some(child) = roster.child(number) else {
        return;
    };
    let new = end_child(rt, heads, child);
    roster.replace(new);
}

/// Closes the standard input of the child with this number, where that wasn't asked for before; and gives
/// again what found its lane full. It waits for no pump.
pub fn end<R: Wait, H: Heads>(rt: &R, heads: &mut H, roster: &mut Roster, number: u32)
    requires lanes { HaveLanes roster.old.children (H.seen heads.old) }
    requires noted { roster.old.noted < 2 ^ 62 }
    ensures ended { EndCall number roster.old.children roster.new.children (H.seen heads.old)
        (H.seen heads.new) }
    ensures lanes { HaveLanes roster.new.children (H.seen heads.new) }
    ensures numbered { Numbered roster.old.children }
    ensures numbered_now { Numbered roster.new.children }
    ensures running { running_of roster.new.children ≡ running_of roster.old.children }
    ensures lent { LeavesFree roster.old.children roster.new.children }
    ensures noted { roster.new.noted ≡ roster.old.noted }
{
    serve(rt, heads, roster, &[]);
    end_at(rt, heads, roster, number);
}
