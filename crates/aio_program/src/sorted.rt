//! Lines by what they are to the blocks around them.
ghost use Rattle.aio_program.specs.Line.{plain_line};
ghost use Rattle.aio_program.specs.Sorted.{IsSorted};

use crate::line::Line;
use crate::statement::Statement;
use aio_syntax::Expr;
use model_value::Kind;
use std::rc::RcStr;

/// A line by what it is to the blocks around it.
#[derive(Drop)]
pub enum Sorted {
    Opens(Head),
    Begins(Begin),
    /// It is an `end`.
    Closes,
    /// It opens, begins and closes nothing, and may be a statement.
    Stands(Option<Statement>),
}

/// The head of a block.
#[derive(Drop)]
pub enum Head {
    Def(RcStr, Vec<RcStr>),
    If(Expr),
    While(Expr),
    Try,
    WithGroup(RcStr),
    WithTimeout(Expr, RcStr),
}

/// A line that begins a further section of its block.
#[derive(Drop)]
pub enum Begin {
    Else,
    Except(Kind, Option<RcStr>),
    Finally,
}

/// The line, sorted.
pub fn sort_out(line: Line) -> Sorted
    ensures { IsSorted result (plain_line line) }
{
    match line {
        Line::Profile(_) => Sorted::Stands(None),
        Line::Def(name, parameters) => Sorted::Opens(Head::Def(name, parameters)),
        Line::Assign(name, value) => Sorted::Stands(Some(Statement::assign(name, value))),
        Line::Yield => Sorted::Stands(Some(Statement::bare_yield())),
        Line::YieldFrom(into, target) => Sorted::Stands(Some(Statement::yield_from(into, target))),
        Line::Print(items) => Sorted::Stands(Some(Statement::print(items))),
        Line::Raise(fault) => Sorted::Stands(Some(Statement::raise(fault))),
        Line::Return(value) => Sorted::Stands(Some(Statement::return_value(value))),
        Line::Pass => Sorted::Stands(Some(Statement::pass())),
        Line::If(test) => Sorted::Opens(Head::If(test)),
        Line::Else => Sorted::Begins(Begin::Else),
        Line::While(test) => Sorted::Opens(Head::While(test)),
        Line::Try => Sorted::Opens(Head::Try),
        Line::Except(kind, name) => Sorted::Begins(Begin::Except(kind, name)),
        Line::Finally => Sorted::Begins(Begin::Finally),
        Line::WithGroup(name) => Sorted::Opens(Head::WithGroup(name)),
        Line::WithTimeout(delay, name) => Sorted::Opens(Head::WithTimeout(delay, name)),
        Line::End => Sorted::Closes,
    }
}
