use crate::way::Way;

/// A `try` or a `with` that is open, by its range of the table and how far it has come.
#[derive(Drop)]
pub enum OpenHandler<V, E> {
    /// In the body of a `try`: its clauses and its `finally` are to come.
    InTry(usize),
    /// In a clause, or past the clauses: the `finally` is to come.
    InClause(usize),
    /// In a `finally`, which keeps a way out.
    InFinally(Way<V, E>),
    /// In the body of a `with`, with what its entry was answered.
    InWith(usize, V),
    /// At the exit of a `with`, which keeps a way out.
    AtExit(V, Way<V, E>),
}
