//! What `yield from` hands over to, and what `with` enters.
use aio_syntax::{Expr, ExprList};
use model_tree::RequestName;
use std::rc::RcStr;

/// What `yield from` hands over to.
#[derive(Drop)]
pub enum Target {
    /// The future or task that a variable holds.
    Await(RcStr),
    /// A coroutine of the script, which runs in the place of the call.
    Call(RcStr, ExprList),
    /// A request whose arguments are all values.
    Ask(RequestName, ExprList),
    /// `spawn(NAME, ..)`.
    SpawnTask(RcStr, ExprList),
    /// `create(g, NAME, ..)`.
    CreateTask(Expr, RcStr, ExprList),
    /// `listen(n, NAME)`.
    ListenAt(Expr, RcStr),
}

/// What `with` enters.
#[derive(Drop)]
pub enum Manager {
    Group,
    /// The delay may be None, which is none.
    Timeout(Expr),
}
