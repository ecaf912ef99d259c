/// The two sorts of literals.
/// Source: the Python language reference, "String and Bytes literals".
#[derive(Clone, Copy, PartialEq, Eq)]
pub enum Literal {
    /// `"..."`
    OfText,
    /// `b"..."`
    OfBytes,
}
