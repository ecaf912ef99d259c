//! What was opened.

/// A listener, a connection or a child, by its number.
#[derive(Clone, Copy, PartialEq, Eq)]
pub enum Opened {
    Server(u32),
    Conn(u32),
    Child(u32),
}
