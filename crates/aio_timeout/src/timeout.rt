//! One timeout.
use crate::handler::TimeoutHandler;
use crate::state::TimeoutState;

/// A timeout: its state, the task whose block it is, that task's count of cancels when the block
/// was entered, and the handle that waits for its deadline, if it has one.
#[derive(Clone, Copy)]
pub struct Timeout {
    pub state: TimeoutState,
    pub task: u32,
    pub stored: u64,
    pub handler: Option<TimeoutHandler>,
}
