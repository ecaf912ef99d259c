/// A way out of statements, over the types of values and exceptions.
#[derive(Drop)]
pub enum Way<V, E> {
    /// What stands after them is next.
    Passing,
    Returning(V),
    Raising(E),
}
