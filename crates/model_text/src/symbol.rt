/// The symbols of a script.
/// Source: the Python language reference, "Operators" and "Delimiters", cut to those that scripts have.
#[derive(Clone, Copy, PartialEq, Eq)]
pub enum Symbol {
    LeftParenthesis,
    RightParenthesis,
    LeftBracket,
    RightBracket,
    Comma,
    /// `=`
    Assign,
    /// `==`
    Equals,
    /// `!=`
    NotEquals,
    LessThan,
    LessOrEqual,
    GreaterThan,
    GreaterOrEqual,
    Plus,
    Minus,
    Star,
    /// `//`
    DoubleSlash,
    Percent,
}
