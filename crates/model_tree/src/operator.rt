/// The arithmetic operators with two operands: `+`, `-`, `*`, `//` and `%`.
/// Source: the language reference, "Binary arithmetic operations".
#[derive(Clone, Copy, PartialEq, Eq)]
pub enum Operator {
    Add,
    Subtract,
    Multiply,
    FloorDivide,
    Remainder,
}

/// The comparisons: `==`, `!=`, `<`, `<=`, `>` and `>=`.
/// Source: the language reference, "Comparisons".
#[derive(Clone, Copy, PartialEq, Eq)]
pub enum Comparison {
    Equal,
    NotEqual,
    Less,
    LessOrEqual,
    Greater,
    GreaterOrEqual,
}
