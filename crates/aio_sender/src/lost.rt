//! The sender of a connection that is over, in few bytes.
use aio_flow::SpentFlow;
use aio_task::FutureId;

/// A connection's sender whose loss is done, with nobody who drains: its writer, whether it was lost
/// by a failure, and the future that `wait_closed` awaits. It stands for the definitions' `Sender`
/// (`sender_of`).
#[derive(Drop)]
pub struct LostSender {
    pub flow: SpentFlow,
    pub broken: bool,
    pub closed: FutureId,
}
