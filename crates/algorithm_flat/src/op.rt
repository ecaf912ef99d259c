use model_tree::RequestName;

/// An operation of flat code. `N` is the type of names, `E` that of expressions and `L` that of
/// lists of expressions: plain data in definitions, and types that own their content in code.
///
/// Places are those of operations in the same body, ranges those of its table, and coroutines those
/// of the script, each from 0.
#[derive(Drop)]
pub enum Op<N, E, L> {
    /// `NAME = EXPR`.
    Assign {
        name: N,
        value: E,
    },
    Print(L),
    Raise(E),
    Return(Option<E>),
    Pass,
    /// A bare `yield`.
    Pause,
    /// `yield from` of what a variable holds.
    Await {
        into: Option<N>,
        name: N,
    },
    /// A request whose arguments are all values.
    Ask {
        into: Option<N>,
        request: RequestName,
        arguments: L,
    },
    /// `spawn(NAME, ..)`.
    Spawn {
        into: Option<N>,
        coroutine: u32,
        arguments: L,
    },
    /// `create(g, NAME, ..)`.
    Create {
        into: Option<N>,
        group: E,
        coroutine: u32,
        arguments: L,
    },
    /// `listen(n, NAME)`.
    Listen {
        into: Option<N>,
        port: E,
        coroutine: u32,
    },
    /// A coroutine of the script runs in the place of the call.
    Call {
        into: Option<N>,
        coroutine: u32,
        arguments: L,
    },
    /// `if`: where the test is False, it goes on at a place.
    Test {
        test: E,
        otherwise: usize,
    },
    Jump(usize),
    /// The test of a loop: where it is True, it goes on at a place.
    Repeat {
        test: E,
        body: usize,
    },
    /// `try`: a range of the table opens.
    Guard(usize),
    /// `with group`: a range opens where the request is answered.
    EnterGroup {
        name: N,
        range: usize,
    },
    /// `with timeout(..)`, likewise.
    EnterTimeout {
        delay: E,
        name: N,
        range: usize,
    },
    /// The exit of a `with group`.
    ExitGroup,
    ExitTimeout,
    /// The end of what the innermost open handler covers.
    Leave,
    /// The end of a `finally`: the way out that was kept is taken.
    Resume,
}
