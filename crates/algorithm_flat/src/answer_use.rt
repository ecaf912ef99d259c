/// What the answer of a request is to the operation that asked it.
#[derive(Drop)]
pub enum AnswerUse<N> {
    Ignored,
    /// A variable holds it, where there is one.
    AssignedTo(Option<N>),
    /// A variable holds it, and the body of a `with` begins, which a range covers.
    Entered { name: N, range: usize },
}
