//! A receiver that holds nothing, in few bytes.
use aio_reader::BareReader;

/// A receiver whose reader is bare, with no read that waits. It stands for the definitions'
/// `Receiver` (`receiver_of`).
#[derive(Drop)]
pub struct BareReceiver {
    pub reader: BareReader,
}
