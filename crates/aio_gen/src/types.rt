//! Ways out, open handlers and moves, over the values of the code.
use aio_base::{Exc, Request, Value};
use aio_expr::Local;

/// A way out of statements.
pub type Way = algorithm_flat::Way<Value, Exc>;

/// A `try` or a `with` that is open.
pub type OpenHandler = algorithm_flat::OpenHandler<Value, Exc>;

/// What the answer of a request is to the operation that asked it.
pub type AnswerUse = algorithm_flat::AnswerUse<Local>;

/// What a move comes to.
#[derive(Drop)]
pub enum Move {
    Goes(Way),
    Asks(Request, AnswerUse),
    Returns(Value),
    Raises(Exc),
    Runaway,
}
