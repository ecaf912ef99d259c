/// What becomes of a piece that is written.
/// Source: `selector_events.py`, `_SelectorSocketTransport.write`.
#[derive(Clone, Copy, PartialEq, Eq)]
pub enum Put {
    /// Nothing was unsent: the piece is to be offered at once.
    Offer,
    /// The piece waits behind what is unsent.
    Kept,
    /// There is nothing to write.
    Empty,
    /// The end was written before: the write is refused.
    AfterEof,
    /// The connection is lost, or will be: the piece is dropped.
    Dropped,
}

/// What becomes of marks that are asked for.
/// Source: `transports.py`, `_FlowControlMixin._set_write_buffer_limits`.
#[derive(Clone, Copy, PartialEq, Eq)]
pub enum Limited {
    Set,
    BadLimits,
}
