//! A hub, and how it is made.
ghost use Rattle.std.specs.Prelude.{◌≡◌, IfOk};
ghost use Rattle.aio_inbox.specs.Naming.{table_of};
ghost use Rattle.aio_live.specs.Made.{IsNew};

use aio_base::Memory;
use aio_hub::Launcher;
use aio_inbox::{Inbox, InboxName, Poster, UnnamedInbox};
use aio_live::State as HubState;
use std::alloc::Global;

/// What a live run asks: what it keeps of children, a poller of sockets, and a launcher of children.
/// Its pumps post into the inbox that `N` names, and it posts nothing itself.
#[derive(Drop)]
pub struct Hub<N: InboxName, R, P, L: Launcher<Inbox<N>, Poster<N>>> {
    pub(crate) rt: R,
    pub(crate) state: HubState<N, L::Run>,
    pub(crate) poller: P,
    pub(crate) launcher: L,
}

// Lets go what a hub would have stood on.
pub(crate) fn forget<R: Drop, P: Drop, L: Drop>(_rt: R, _poller: P, _launcher: L) {}

impl<N: InboxName, R, P, L: Launcher<Inbox<N>, Poster<N>>> Hub<N, R, P, L> {
    /// A hub over what it keeps, which was made before (`HubState::make`). It takes no memory, so nothing that it
    /// stands on is let go where memory is refused: a launcher that must be closed is made last.
    pub fn over(rt: R, poller: P, launcher: L, state: HubState<N, L::Run>) -> Hub<N, R, P, L>
        ensures { result.state ≡ state }
    {
        Hub {
            rt,
            state,
            poller,
            launcher,
        }
    }
}

impl<N: InboxName, R: Drop, P: Drop, L: Launcher<Inbox<N>, Poster<N>> + Drop> Hub<N, R, P, L> {
    /// A hub that launched no child, over the inbox that `N` names. It keeps the runtime, by which its
    /// calls may wait.
    pub fn make(
        rt: R,
        alloc: Global,
        poller: P,
        launcher: L,
        unnamed: UnnamedInbox,
    ) -> Result<Hub<N, R, P, L>, Memory>
        requires { table_of unnamed ≡ N.table }
        ensures state { IfOk result (λ hub. IsNew hub.state) }
    {
        match HubState::make(alloc, unnamed) {
            Ok(state) => Ok(Hub {
                rt,
                state,
                poller,
                launcher,
            }),
            Err(Memory) => {
                forget(rt, poller, launcher);
                Err(Memory)
            }
        }
    }
}
