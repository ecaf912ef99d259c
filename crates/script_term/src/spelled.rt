//! The form of a line, before names are looked up.
use crate::term::Term;
use std::rc::RcStr;

/// Arguments in order. Where the call takes a kind or a coroutine by its name, that
/// argument is a bare name.
#[derive(Drop)]
pub struct Arguments {
    pub before: Vec<Term>,
    pub bare: Option<RcStr>,
    pub after: Vec<Term>,
}

/// What `yield from` names: a variable, or a call.
#[derive(Drop)]
pub enum Goal {
    Awaited(RcStr),
    Asked(RcStr, Arguments),
}

/// The form of a line.
#[derive(Drop)]
pub enum Spelled {
    Profile(u64),
    /// The name, and those of the parameters.
    Def(RcStr, Vec<RcStr>),
    Assign(RcStr, Term),
    /// A bare `yield`.
    Yield,
    /// The variable that takes the result, and what is awaited.
    YieldFrom(Option<RcStr>, Goal),
    Print(Vec<Term>),
    Raise(Term),
    Return(Option<Term>),
    Pass,
    If(Term),
    Else,
    While(Term),
    Try,
    /// The kind, and the variable that takes the exception.
    Except(RcStr, Option<RcStr>),
    Finally,
    WithGroup(RcStr),
    WithTimeout(Term, RcStr),
    End,
}

/// A form, with the number of its line. Lines are counted from 1.
#[derive(Drop)]
pub struct NumberedForm {
    pub line: u64,
    pub form: Spelled,
}
