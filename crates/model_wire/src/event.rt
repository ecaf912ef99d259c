/// What happens in a run, in order. `C` is the type of calls, `A` that of answers, `R` that of
/// actions and `B` that of bytes: plain data in definitions, and types of their own in code.
#[derive(Drop)]
pub enum Event<C, A, R, B> {
    /// The loop asked the outside.
    Called(C),
    /// The outside answered.
    Got(A),
    /// A handle ran.
    Ran(R),
    /// A task printed a text.
    Said { task: u32, text: B },
}

/// Whose bytes are counted: those that a connection was handed, or a child's standard input.
#[derive(Clone, Copy, PartialEq, Eq)]
pub enum Handed {
    Conn(u32),
    Child(u32),
}

/// What the last line of a transcript tells. `V` is the type of values, `E` that of exceptions and
/// `C` that of calls.
#[derive(Drop)]
pub enum End<V, E, C> {
    /// Main returned this value.
    Returned(V),
    /// Main raised this exception.
    Raised(E),
    /// Main was cancelled.
    Cancelled,
    /// The words are no command.
    WordsRefused,
    /// The text is no script, by its first fault.
    ScriptRefused { line: u64, cause: u8 },
    /// The run needs a line of the journal that is no entry.
    JournalRefused { line: u64, cause: u8 },
    /// The answer with this number, from 1, doesn't fit this call.
    Mismatch { count: u64, call: C },
    /// This call finds no answer.
    Over(C),
    /// Nothing is pending and nothing can come.
    Stalled,
    /// A step of this task has too many statements.
    Runaway(u32),
    /// The shelf failed.
    ShelfFault,
    /// The wire failed.
    WireFault,
    /// So many turns were made, as many as are allowed.
    Turns(u64),
}
