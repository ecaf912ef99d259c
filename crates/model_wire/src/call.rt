/// What the loop asks of the outside. `B` is the type of bytes, `W` that of watch lists and `L`
/// that of lists of words: lists in definitions, and types of their own in code.
/// Source: `selectors.py`, `select`; the library reference, `socket` and `subprocess`.
#[derive(Drop)]
pub enum Call<B, W, L> {
    /// Waits for what is watched, for at most so many milliseconds or without a bound.
    Select { wait: Option<u64>, watch: W },
    /// Opens a listener on a port of 127.0.0.1.
    Listen(u16),
    Accept(u32),
    /// Begins a connection to a port of 127.0.0.1.
    Connect(u16),
    /// Receives at most 262,144 bytes from a connection.
    Recv(u32),
    Send { conn: u32, bytes: B },
    /// Writes to a child's standard input.
    Feed { child: u32, bytes: B },
    /// Says that no more bytes are sent on a connection.
    Shut(u32),
    Close(u32),
    CloseServer(u32),
    /// Closes a child's standard input.
    End(u32),
    Kill(u32),
    /// Starts a child with these words: its program and its arguments.
    Launch(L),
    /// Asks for a request that is added to the loop's own.
    Extra { code: i64, bytes: B },
}
