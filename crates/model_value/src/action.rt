/// Why an await would never end: the task awaits itself, or something that waits for it.
#[derive(Clone, Copy, PartialEq, Eq)]
pub enum CycleKind {
    Itself,
    ItsWaiter,
}

/// What a handle runs: a callback with its arguments. `B` is the type of bytes: a list in definitions, and a type of its
/// own in code.
/// Source: `events.py`, Handle; the callbacks of `tasks.py`, `timeouts.py`, `taskgroups.py`, `selector_events.py` and
/// `base_subprocess.py`.
#[derive(Drop)]
pub enum Action<B> {
    /// A task's step that nothing was awaited for: its first, and the one after a bare `yield`.
    Step(u32),
    /// A task's step after it awaited in a cycle: RuntimeError is thrown into it.
    StepInCycle { task: u32, cycle: CycleKind },
    /// A task's step after the future that it waits for is done.
    Wakeup(u32),
    /// The time that a task asked to sleep is over: its future is resolved unless it is done.
    SleepDone { task: u32, future: u64 },
    /// A task of a group is done.
    GroupDone { group: u32, task: u32 },
    /// The time of a timeout is over.
    Fires(u32),
    /// Main's task is done.
    MainDone,
    /// A connection stands.
    Made(u32),
    /// A connection begins to read.
    StartRead(u32),
    /// A connection is over, after a failure where `broken`.
    Lost { conn: u32, broken: bool },
    /// The task that handles an accepted connection is done.
    HandlerDone { conn: u32, task: u32 },
    /// A listener may accept.
    ReadableServer(u32),
    /// A connection may receive.
    Readable(u32),
    /// A connection may send.
    Writable(u32),
    /// A connection that is being made was made.
    Up(u32),
    /// A connection that is being made could not be made.
    Down(u32),
    /// A child's standard input may be fed.
    WritableChild(u32),
    /// A child or one of its pipes has news.
    ChildItem { child: u32, item: ChildItem<B> },
    /// A child's standard input is over, after a failure where `broken`.
    LostChild { child: u32, broken: bool },
    /// The outside has news for the requests that are added to the loop's own.
    ExtraItem { code: i64, bytes: B },
    /// A handle of the requests that are added to the loop's own, under the key that they gave it.
    Extra(u64),
}

/// What a child or one of its pipes tells.
#[derive(Drop)]
pub enum ChildItem<B> {
    /// Its standard input broke.
    Broken,
    Out(B),
    OutEnd,
    Errs(B),
    ErrsEnd,
    /// Its exit code; -N where signal N ended it.
    Exit(i64),
}
