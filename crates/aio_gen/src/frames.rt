//! The frames of a coroutine.
ghost use Rattle.std.specs.Prelude.{◌≤◌, length};

use crate::types::OpenHandler;
use aio_expr::{Env, Local};

/// A call of a coroutine.
#[derive(Drop)]
pub struct Frame {
    pub coroutine: u32,
    /// The place of the next operation.
    pub place: usize,
    /// The handlers that are open, the innermost at the end.
    pub handlers: Vec<OpenHandler>,
    pub env: Env,
    /// The caller's variable for what this one returns.
    pub into: Option<Local>,
}

/// The frame that runs, and those that wait for it, the innermost at the end. Frames are let go as
/// they are left.
#[derive(Drop)]
pub struct Frames {
    pub frame: Frame,
    pub callers: Vec<Frame>,
    /// How many statements may yet begin in this step.
    pub left: u64,
    ghost few: { length callers.items ≤ 63 },
}
