//! The Writes to a child.
ghost use Rattle.std.specs.Prelude.{◌≡◌, ◌<◌, ◌^◌};
ghost use Rattle.aio_roster.specs.Rosters.{Numbered, running_of};
ghost use Rattle.aio_roster.specs.Changes.{LeavesFree};
ghost use Rattle.aio_commands.specs.Served.{HaveLanes};
ghost use Rattle.aio_commands.specs.Fed.{FeedsAt};
ghost use Rattle.aio_commands.specs.Commands.{FeedCall};

use crate::serving::serve;
use aio_base::Blob;
use aio_roster::Roster;
use aio_serving::{Fed, Heads, feed_child};
use aio_wire::Answer;
use std::sync::Wait;

// Gives the child with this number all of these bytes in one Write, or none of them.
fn feed_at<R: Wait, H: Heads>(
    rt: &R,
    heads: &mut H,
    roster: &mut Roster,
    number: u32,
    bytes: Blob,
) -> Answer
    requires lanes { HaveLanes roster.old.children (H.seen heads.old) }
    requires noted { roster.old.noted < 2 ^ 62 }
    ensures fed { FeedsAt number bytes roster.old.children roster.new.children result
        (H.seen heads.old) (H.seen heads.new) }
    ensures lanes { HaveLanes roster.new.children (H.seen heads.new) }
    ensures numbered_now { Numbered roster.new.children }
    ensures running { running_of roster.new.children ≡ running_of roster.old.children }
    ensures lent { LeavesFree roster.old.children roster.new.children }
    ensures noted { roster.new.noted ≡ roster.old.noted }
{
    let Some(child) = roster.child(number) else {
        return Answer::Again;
    };
    let Fed { child: new, answer } = feed_child(rt, heads, child, bytes);
    roster.replace(new);
    answer
}

/// Gives the child with this number all of these bytes in one Write, or none of them, behind what found
/// its lane full before. It waits for no pump.
pub fn feed<R: Wait, H: Heads>(
    rt: &R,
    heads: &mut H,
    roster: &mut Roster,
    number: u32,
    bytes: Blob,
) -> Answer
    requires lanes { HaveLanes roster.old.children (H.seen heads.old) }
    requires noted { roster.old.noted < 2 ^ 62 }
    ensures fed { FeedCall number bytes roster.old.children roster.new.children result
        (H.seen heads.old) (H.seen heads.new) }
    ensures lanes { HaveLanes roster.new.children (H.seen heads.new) }
    ensures numbered { Numbered roster.old.children }
    ensures numbered_now { Numbered roster.new.children }
    ensures running { running_of roster.new.children ≡ running_of roster.old.children }
    ensures lent { LeavesFree roster.old.children roster.new.children }
    ensures noted { roster.new.noted ≡ roster.old.noted }
{
    serve(rt, heads, roster, &[]);
    feed_at(rt, heads, roster, number, bytes)
}
