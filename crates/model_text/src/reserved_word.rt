/// The words that a script can't use as names.
/// Source: the Python language reference, "Keywords", cut to those that scripts have, with `profile`, `print`, `group` and
/// `timeout`.
#[derive(Clone, Copy, PartialEq, Eq)]
pub enum ReservedWord {
    Profile,
    Def,
    End,
    Yield,
    From,
    Print,
    Raise,
    Return,
    Pass,
    If,
    Else,
    While,
    Try,
    Except,
    As,
    Finally,
    With,
    Group,
    Timeout,
    And,
    Or,
    Not,
    /// `True`
    TrueValue,
    /// `False`
    FalseValue,
    /// `None`
    NoneValue,
}
