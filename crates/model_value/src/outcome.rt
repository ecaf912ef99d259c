/// How a future ends. `V` is the type of values and `E` that of exceptions: plain data in definitions, and types that
/// share their content in code.
#[derive(Clone, Drop)]
pub enum Outcome<V, E> {
    Value(V),
    Failed(E),
    Cancelled,
}
