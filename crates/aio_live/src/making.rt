//! How a hub's state is made.
ghost use Rattle.std.specs.Prelude.{◌≡◌, IfOk};
ghost use Rattle.aio_inbox.specs.Naming.{table_of};
ghost use Rattle.aio_inbox.specs.Views.{new_taker};
ghost use Rattle.aio_postbox.specs.Fours.{AllFours};
ghost use Rattle.aio_live.specs.Made.{IsNew};

use crate::pumped::Pumped;
use crate::state::State;
use aio_base::Memory;
use aio_inbox::{InboxName, UnnamedInbox};
use aio_lanes::Lanes;
use aio_postbox::{Four, Postbox, in_fours};
use aio_roster::Roster;
use std::alloc::Global;
use std::collections::VecDeque;

// Lets a postbox go.
fn forget_postbox<N: InboxName>(_postbox: Postbox<N>) {}

// The postbox over this inbox, and the posters of its seats by fours.
fn postbox_of<N: InboxName>(
    alloc: Global,
    unnamed: UnnamedInbox,
) -> Result<(Postbox<N>, VecDeque<Four<N>>), Memory>
    requires { table_of unnamed ≡ N.table }
    ensures postbox { IfOk result (λ made. made.0 ≡ new_taker 1024) }
    ensures fours { IfOk result (λ made. AllFours made.1.items) }
{
    let (postbox, posters) = Postbox::make(alloc, unnamed)?;
    match in_fours(alloc, posters) {
        Ok(fours) => Ok((postbox, fours)),
        Err(Memory) => {
            forget_postbox(postbox);
            Err(Memory)
        }
    }
}

impl<N: InboxName, Run: Drop> State<N, Run> {
    /// What a hub keeps that launched no child, over the inbox that `N` names. All its seats may be
    /// lent.
    pub fn make(alloc: Global, unnamed: UnnamedInbox) -> Result<State<N, Run>, Memory>
        requires { table_of unnamed ≡ N.table }
        ensures { IfOk result (λ state. IsNew state) }
    {
        let roster = Roster::new(alloc)?;
        let (postbox, free) = postbox_of(alloc, unnamed)?;
        Ok(State {
            pumped: Pumped { roster, postbox },
            lanes: Lanes::new(alloc),
            kept: Vec::new(alloc),
            free,
            starved: false,
        })
    }
}
