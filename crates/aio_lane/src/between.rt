//! What the two ends of a lane share.

use crate::parker::Parker;
use crate::track::CommandQueue;

/// The queue, and what the tail waits on.
#[derive(Drop)]
pub(crate) struct Between {
    pub(crate) queue: CommandQueue,
    pub(crate) parker: Parker,
}
