//! A connection that is over, in few bytes.
use aio_receiver::BareReceiver;
use aio_sender::LostSender;

/// A connection that was lost, which holds nothing and for which nobody waits: the coroutine that
/// handles it, if it was accepted, its two sides, and whether it began to read. It stands for the
/// definitions' `Connection` (`connection_of`).
#[derive(Drop)]
pub struct LostConnection {
    pub handler: Option<u32>,
    pub sender: LostSender,
    pub receiver: BareReceiver,
    pub began: bool,
}
