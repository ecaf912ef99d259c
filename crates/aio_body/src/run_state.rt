//! What the kernel keeps of a run that goes on.
use crate::held::HeldSlot;
use aio_flat::Code;
use aio_group::Groups;
use aio_task::{FutureId, Parts};
use aio_timeout::Timeouts;
use aio_transports::Transports;
use aio_wire::Events;

/// What the kernel keeps of a run that goes on. Coroutines are numbered as the tasks are. `X` is
/// what is added to the loop's own requests.
#[derive(Drop)]
pub struct RunState<X> {
    pub code: Code,
    pub parts: Parts,
    pub slots: Vec<HeldSlot>,
    pub timeouts: Timeouts,
    pub groups: Groups,
    /// The listeners, the connections and the children.
    pub transports: Transports,
    /// The futures that `future()` made, in order of making.
    pub futures: Vec<FutureId>,
    /// Whether main's callback ran.
    pub main_done: bool,
    pub events: Events,
    /// What serves requests that are added.
    pub extra: X,
}
