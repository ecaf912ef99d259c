/// The kinds of exceptions, of which each but `BaseException` has one parent.
/// Source: the library reference, "Built-in Exceptions", cut to those that the loop and its scripts raise.
#[derive(Clone, Copy, PartialEq, Eq)]
pub enum Kind {
    BaseException,
    CancelledError,
    Exception,
    ArithmeticError,
    LookupError,
    OSError,
    RuntimeError,
    TypeError,
    ValueError,
    NameError,
    EOFError,
    LimitOverrunError,
    InvalidStateError,
    ExceptionGroup,
    OverflowError,
    ZeroDivisionError,
    IndexError,
    RecursionError,
    IncompleteReadError,
    TimeoutError,
    ConnectionError,
    ConnectionResetError,
    ConnectionRefusedError,
    BrokenPipeError,
}
