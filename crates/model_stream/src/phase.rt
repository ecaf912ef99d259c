/// How far the end of a connection, or of a child's standard input, has come.
/// Source: `selector_events.py`, `_SelectorTransport`: `_closing`, `_conn_lost`, `_call_connection_lost`.
#[derive(Clone, Copy, PartialEq, Eq)]
pub enum Phase {
    Open,
    /// It was closed, and what is unsent is sent first.
    Closing,
    /// Loss is scheduled. It has an exception where `broken`, and what was unsent was dropped then.
    Losing { broken: bool },
    /// Loss is done.
    Lost { broken: bool },
}
