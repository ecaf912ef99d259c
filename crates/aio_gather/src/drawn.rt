//! What keys are drawn for.
use aio_base::Value;
use aio_task::FutureId;
use aio_timer::TimerId;

/// A gather: its future, which stands for its members; the future of each argument, in order;
/// whether exceptions are items of the answer; and how many of its members aren't counted yet.
#[derive(Drop)]
pub struct Gathering {
    pub outer: FutureId,
    pub awaited: Vec<FutureId>,
    pub as_items: bool,
    pub left: u64,
}

/// An argument of a wait, and the future that it names.
#[derive(Drop)]
pub struct Argument {
    pub value: Value,
    pub future: FutureId,
}

/// When a wait is over: `return_when`.
#[derive(Clone, Copy)]
pub enum WaitMode {
    AllCompleted,
    FirstCompleted,
    FirstException,
}

/// A wait: the future that it waits on, its distinct arguments in order, when it is over, how many
/// of them aren't counted yet, and its timer, if it has one.
#[derive(Drop)]
pub struct Waiting {
    pub on: FutureId,
    pub arguments: Vec<Argument>,
    pub mode: WaitMode,
    pub left: u64,
    pub timer: Option<TimerId>,
}

/// How far a `wait_for` is.
#[derive(Clone, Copy)]
pub enum TimedState {
    /// Its time isn't over, or it has none.
    Timed,
    /// Its time is over, and its task's cancel was asked for.
    Expiring,
    /// Its task went on after that.
    Expired,
    /// Its task went on before that.
    Finished,
}

/// A `wait_for`: its task, how many cancels that counted as it began, and its timer, if it has one.
#[derive(Clone, Copy)]
pub struct TimedWait {
    pub task: u32,
    pub stored: u64,
    pub timer: Option<TimerId>,
    pub state: TimedState,
}

/// What a key was drawn for.
#[derive(Drop)]
pub enum Drawn {
    /// A request that was answered as it was asked.
    Answered,
    Gathers(Gathering),
    Waits(Waiting),
    /// A shield waits on a future of its own.
    Shields { on: FutureId },
    WaitsFor(TimedWait),
    /// A handle of the request at this place: this future is done.
    Tells { place: u64, future: FutureId },
    /// A handle of the request at this place: the time is over.
    Rings { place: u64 },
}
