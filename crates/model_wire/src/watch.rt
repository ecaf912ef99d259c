/// What a select waits for on one listener, connection or child, or for the requests that are added
/// to the loop's own.
/// Source: `selectors.py`, `SelectorKey`; `selector_events.py`, `_add_reader` and `_add_writer`.
#[derive(Clone, Copy, PartialEq, Eq)]
pub enum Watch {
    /// A listener that is open.
    Server(u32),
    /// A connection that is being made.
    Making(u32),
    /// A connection that stands: whether it reads, and whether it has bytes to send.
    Conn {
        conn: u32,
        reads: bool,
        writes: bool,
    },
    /// A child: whether there are bytes to feed it, whether its standard input isn't lost, whether
    /// its standard output and its standard error are read, and whether its exit is still to come.
    Child {
        child: u32,
        feeds: bool,
        stdin: bool,
        out: bool,
        errs: bool,
        exit: bool,
    },
    /// News for the requests that are added to the loop's own.
    Extra,
}
