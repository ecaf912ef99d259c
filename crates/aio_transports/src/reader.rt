//! What is read.
use model_pump::Stream;

/// A connection, or a pipe that a child writes, by its number.
#[derive(Clone, Copy, PartialEq, Eq)]
pub enum StreamReader {
    Conn(u32),
    Child { pipe: Stream, id: u32 },
}
