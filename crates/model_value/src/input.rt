/// What a coroutine is resumed with, over the types of values and exceptions.
/// Source: PEP 380; PEP 342, `send` and `throw` of a generator.
#[derive(Clone, Drop)]
pub enum Input<V, E> {
    Send(V),
    Throw(E),
}
