use model_value::Kind;

/// An `except` clause: the kind that it takes, the variable that the exception is bound to, and
/// where its body stands.
#[derive(Drop)]
pub struct Clause<N> {
    pub kind: Kind,
    pub name: Option<N>,
    pub at: usize,
}

/// What handles the ways out of a `try` or a `with`: the clauses in order, and where the `finally`
/// or the exit stands. `C` is the type of lists of clauses.
#[derive(Drop)]
pub struct Range<C> {
    pub clauses: C,
    pub finally: usize,
}
