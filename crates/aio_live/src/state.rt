//! What a hub keeps from call to call.
use crate::pumped::Pumped;
use aio_inbox::InboxName;
use aio_lanes::Lanes;
use aio_postbox::Four;
use aio_wire::Item;
use std::collections::VecDeque;
use std::marker::Model;

/// The children with their posts, the lanes of those that run, the items that no answer had yet, the
/// posters that may be lent by fours, and whether memory was refused.
#[derive(Drop)]
pub struct State<N: InboxName, Run> {
    pub(crate) pumped: Pumped<N>,
    pub(crate) lanes: Lanes<Run>,
    pub(crate) kept: Vec<Item>,
    pub(crate) free: VecDeque<Four<N>>,
    pub(crate) starved: bool,
}

impl<N: InboxName, Run> Model for State<N, Run> {
    ghost use Rattle.aio_postbox.specs.Fours.{seats_in};
    ghost use Rattle.aio_lanes.specs.Given.{seen_of};
    ghost use Rattle.aio_live.specs.States.{StateSeen, IsState};

    ghost Value = { StateSeen Run };

    ghost view = { λ state. record {
      hub = record {
        children = state.pumped.roster.children;
        kept = state.kept.items;
        free = seats_in state.free.items;
        taken = state.pumped.postbox.taken;
        starved = state.starved;
      };
      nones = state.pumped.postbox.nones;
      lanes = state.lanes;
    } };

    ghost invariant = { λ state. IsState state.pumped.roster.children (seats_in state.free.items) (seen_of state.lanes) };
}
