/// Why a line of a text is refused.
#[derive(Clone, Copy, PartialEq, Eq)]
pub enum Cause {
    /// 1: the line has no tokens for a byte, a number or a literal that is wrong.
    Token,
    /// 2: the line is no form, or its form may not stand there.
    Form,
    /// 3: blocks don't fit, or are nested too deep; an expression is too high.
    Nesting,
    /// 4: a name is unknown, or may not be used so.
    Name,
    /// 5: a wrong number of arguments or parameters.
    Arity,
    /// 6: the text is too long.
    TooLong,
    /// 7: there is no `main` without parameters.
    NoMain,
    /// 8: the profile is none that there is.
    Profile,
}
