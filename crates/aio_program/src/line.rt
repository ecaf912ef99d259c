//! Lines whose names have their meanings, and the lines of a coroutine.
use crate::target::Target;
use aio_syntax::{Expr, ExprList};
use model_value::Kind;
use std::rc::RcStr;

/// A line of a script by its form.
#[derive(Drop)]
pub enum Line {
    Profile(u64),
    Def(RcStr, Vec<RcStr>),
    /// `NAME = EXPR`.
    Assign(RcStr, Expr),
    /// A bare `yield`.
    Yield,
    /// `yield from TARGET`, or `NAME = yield from TARGET`.
    YieldFrom(Option<RcStr>, Target),
    Print(ExprList),
    Raise(Expr),
    Return(Option<Expr>),
    Pass,
    If(Expr),
    Else,
    While(Expr),
    Try,
    /// `except KIND`, or `except KIND as NAME`.
    Except(Kind, Option<RcStr>),
    Finally,
    /// `with group as NAME`.
    WithGroup(RcStr),
    /// `with timeout(EXPR) as NAME`.
    WithTimeout(Expr, RcStr),
    End,
}

/// The lines of a coroutine.
#[derive(Drop)]
pub struct NamedPart {
    /// The number of its head, from 1.
    pub line: u64,
    pub name: RcStr,
    pub parameters: Vec<RcStr>,
    /// The lines behind its head, with the `end`.
    pub lines: Vec<Line>,
}
