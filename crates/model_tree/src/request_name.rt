/// The requests whose arguments are all values. `spawn`, `create` and `listen`, which take a coroutine, are none of
/// them.
#[derive(Clone, Copy, PartialEq, Eq)]
pub enum RequestName {
    /// `future()`.
    MakeFuture,
    Set,
    Fail,
    /// `done(x)`.
    IsDone,
    /// `cancelled(x)`.
    IsCancelled,
    /// `result(x)`.
    ResultOf,
    Cancel,
    Cancelling,
    Uncancel,
    Current,
    Time,
    Sleep,
    Reschedule,
    Expired,
    Connect,
    Write,
    WriteEof,
    Close,
    WaitClosed,
    Drain,
    Limits,
    Read,
    ReadExactly,
    ReadUntil,
    ReadLine,
    Launch,
    /// `stderr(p)`.
    StandardError,
    /// `wait(p)`.
    WaitChild,
    ReturnCode,
    Kill,
    Extra,
}
