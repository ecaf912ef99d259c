use model_value::ChildItem;

/// What a connection is ready for.
#[derive(Clone, Copy, PartialEq, Eq)]
pub enum Readiness {
    Read,
    Write,
    Both,
}

/// What came while a select waited. `B` is the type of bytes: a list in definitions, and a type of
/// its own in code.
/// Source: `base_events.py`, `_process_events`; `base_subprocess.py`, `_pipe_data_received` and
/// `_process_exited`.
#[derive(Drop)]
pub enum Item<B> {
    /// A listener may accept.
    ReadableServer(u32),
    /// A connection may receive or send.
    Ready { conn: u32, ready: Readiness },
    /// A connection that was being made stands.
    Up(u32),
    /// A connection could not be made.
    Down(u32),
    /// A child may be fed.
    WritableChild(u32),
    /// A child or one of its pipes has news.
    Child { child: u32, item: ChildItem<B> },
    /// News for the requests that are added to the loop's own.
    Extra { code: i64, bytes: B },
}

/// What an item takes up. No two items of one turn take up the same of one listener, connection or
/// child.
#[derive(Clone, Copy, PartialEq, Eq, Hash)]
pub enum Interest {
    Server,
    Conn,
    /// A child's standard input may be fed.
    Feed,
    /// A child's standard input broke.
    Stdin,
    Out,
    Errs,
    Exit,
}
