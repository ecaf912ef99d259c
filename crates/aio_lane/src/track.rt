//! What the two ends of a lane know of it, and the rule that each step keeps.

use crate::command::Command;
use crossbeam_queue::protocol::{Join, Lesson, Outcome, Protocol, Split};
use crossbeam_queue::{Pass, RuledArrayQueue};
use std::collections::LinkedList;

/// What a pass knows: whether it may give and take, what it gave and took, and how many of its gives met a full lane.
/// No value of it is made.
pub struct Track {
    pub gives: bool,
    pub takes: bool,
    pub given: LinkedList<Command>,
    pub taken: LinkedList<Command>,
    pub fulls: u64,
}

/// The rule of a lane.
pub struct InLane;

impl Protocol<Command, Track> for InLane {
    ghost use Rattle.std.specs.Prelude.{true, []};
    ghost use Rattle.aio_lane.specs.Delivers.{track, Delivers};

    ghost holds = { Delivers };

    ghost first = { track true true [] [] 0 };
}

/// The queue of a lane.
pub type CommandQueue = RuledArrayQueue<Command, Track, InLane>;

/// A pass on it.
pub type LanePass = Pass<Command, Track>;

/// One pass becomes the head's and the tail's, and they become one again.
pub struct Ends;

impl Split<Track> for Ends {
    ghost use Rattle.aio_lane.specs.Delivers.{of_head, of_tail};

    ghost left = { of_head };

    ghost right = { of_tail };
}

impl Join<Track> for Ends {
    ghost use Rattle.aio_lane.specs.Delivers.{of_both, nobody};

    ghost both = { of_both };

    ghost spent = { nobody };
}

/// The head counts a give that met a full lane. The pass that is split off may do nothing.
pub struct Counts;

impl Split<Track> for Counts {
    ghost use Rattle.aio_lane.specs.Delivers.{with_full, nobody};

    ghost left = { with_full };

    ghost right = { λ v. nobody };
}

/// A command joins at the back. Where there is no room, those that stand in the lane are the last that were given.
pub struct Gives;

impl Outcome<Command, Track> for Gives {
    ghost use Rattle.std.specs.Prelude.{◌≡◌};
    ghost use Rattle.aio_lane.specs.Delivers.{with_given};

    ghost then = { λ v x w. w ≡ with_given v x };
}

impl Lesson<Command, Track> for Gives {
    ghost use Rattle.aio_lane.specs.Delivers.{EndsWith};

    ghost fact = { λ v items. EndsWith v.given items };
}

/// A command leaves at the front. Where there is none, nothing is learned.
pub struct Takes;

impl Outcome<Command, Track> for Takes {
    ghost use Rattle.std.specs.Prelude.{◌≡◌};
    ghost use Rattle.aio_lane.specs.Delivers.{with_taken};

    ghost then = { λ v x w. w ≡ with_taken v x };
}

impl Lesson<Command, Track> for Takes {
    ghost use Rattle.std.specs.Prelude.{⊤};

    ghost fact = { λ v items. ⊤ };
}

/// A pass that is both ends knows what stands in the lane.
pub struct Settles;

impl Lesson<Command, Track> for Settles {
    ghost use Rattle.std.specs.Prelude.{◌≡◌, ◌++◌};

    ghost fact = { λ v items. v.given ≡ v.taken ++ items };
}
