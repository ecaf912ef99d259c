/// What a coroutine asks of the loop, with its arguments evaluated. `V` is the type of values, `L` that of lists of
/// values and `E` that of exceptions: plain data in definitions, and types that share their content in code.
///
/// The loop checks the kinds of the arguments. A coroutine of the script is told by its place in the script, from 0.
#[derive(Drop)]
pub enum Request<V, L, E> {
    /// A bare `yield`.
    Pause,
    /// `yield from x` of a variable.
    Await(V),
    Print(L),
    /// `future()`.
    MakeFuture,
    Set {
        future: V,
        value: V,
    },
    Fail {
        future: V,
        fault: V,
    },
    IsDone(V),
    IsCancelled(V),
    ResultOf(V),
    Cancel(V),
    Cancelling(V),
    Uncancel(V),
    Current,
    Time,
    Spawn {
        coroutine: u32,
        arguments: L,
    },
    Sleep(V),
    /// The beginning of a `with timeout(..)`, with its delay.
    TimeoutEnter(V),
    /// The end of that block, with the exception that leaves it.
    TimeoutExit {
        timeout: V,
        fault: Option<E>,
    },
    Reschedule {
        timeout: V,
        when: V,
    },
    Expired(V),
    /// The beginning of a `with group`.
    GroupEnter,
    /// The end of that block, with the exception that leaves it.
    GroupExit {
        group: V,
        fault: Option<E>,
    },
    Create {
        group: V,
        coroutine: u32,
        arguments: L,
    },
    Listen {
        port: V,
        coroutine: u32,
    },
    Connect(V),
    Write {
        stream: V,
        bytes: V,
    },
    WriteEof(V),
    Close(V),
    WaitClosed(V),
    Drain(V),
    Limits {
        stream: V,
        high: V,
        low: V,
    },
    Read {
        stream: V,
        count: V,
    },
    ReadExactly {
        stream: V,
        count: V,
    },
    ReadUntil {
        stream: V,
        separator: V,
    },
    ReadLine(V),
    Launch(V),
    /// `stderr(p)`.
    StandardError(V),
    /// `wait(p)`.
    WaitChild(V),
    ReturnCode(V),
    Kill(V),
    Extra {
        code: V,
        arguments: V,
    },
}
