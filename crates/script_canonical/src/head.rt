//! The text of a statement's first line. Each call appends it, and on `Memory`
//! leaves a front of it.
ghost use Rattle.std.specs.Prelude.{◌≡◌, ◌++◌, OnOk, option_copied};
ghost use Rattle.model_text.specs.Canonical.{expr_text, into_text, returned_text, as_text};
ghost use Rattle.aio_program.specs.Target.{plain_name};
ghost use Rattle.script_canonical.specs.FirstLine.{head_text};

use crate::expression::{push_expr, push_exprs};
use crate::target::{push_manager, push_target};
use crate::words::push_name;
use aio_base::Memory;
use aio_program::{Statement, StatementCase};
use aio_syntax::Expr;
use std::alloc::Global;
use std::rc::RcStr;

/// With neither its indentation nor its newline.
pub fn push_head(alloc: Global, statement: &Statement, out: &mut Vec<u8>) -> Result<(), Memory>
    ensures { OnOk result (out.new.items ≡ out.old.items ++ head_text statement.now) }
{
    match statement.case() {
        StatementCase::Assign(name, value) => {
            push_name(name, out)?;
            push_behind(alloc, " = ", value, out)?;
        }
        StatementCase::Yield => out.extend_from_slice(b"yield")?,
        StatementCase::YieldFrom(into, target) => {
            push_into(into, out)?;
            out.extend_from_slice(b"yield from ")?;
            push_target(alloc, target, out)?;
        }
        StatementCase::Print(items) => {
            out.extend_from_slice(b"print ")?;
            push_exprs(alloc, items.items(), out)?;
        }
        StatementCase::Raise(fault) => push_behind(alloc, "raise ", fault, out)?,
        StatementCase::Return(value) => {
            out.extend_from_slice(b"return")?;
            push_returned(alloc, value, out)?;
        }
        StatementCase::Pass => out.extend_from_slice(b"pass")?,
        StatementCase::If(test, ..) => push_behind(alloc, "if ", test, out)?,
        StatementCase::While(test, _) => push_behind(alloc, "while ", test, out)?,
        StatementCase::Try(..) => out.extend_from_slice(b"try")?,
        StatementCase::With(manager, name, _) => {
            out.extend_from_slice(b"with ")?;
            push_manager(alloc, manager, out)?;
            push_as(Some(name), out)?;
        }
    }
    Ok(())
}

/// An expression behind a word.
fn push_behind(alloc: Global, word: &str, expr: &Expr, out: &mut Vec<u8>) -> Result<(), Memory>
    ensures { OnOk result (out.new.items ≡ out.old.items ++ (word.now ++ expr_text expr.now)) }
{
    out.extend_from_slice(word.as_bytes())?;
    push_expr(alloc, expr, out)
}

/// `NAME = `, or nothing.
fn push_into(name: Option<&RcStr>, out: &mut Vec<u8>) -> Result<(), Memory>
    ensures { OnOk result
        (out.new.items ≡ out.old.items ++ into_text (plain_name (option_copied name.entry))) }
{
    if let Some(name) = name {
        push_name(name, out)?;
        out.extend_from_slice(b" = ")?;
    }
    Ok(())
}

/// The value behind a space, or nothing.
fn push_returned(alloc: Global, value: Option<&Expr>, out: &mut Vec<u8>) -> Result<(), Memory>
    ensures { OnOk result
        (out.new.items ≡ out.old.items ++ returned_text (option_copied value.entry)) }
{
    match value {
        Some(value) => push_behind(alloc, " ", value, out),
        None => Ok(()),
    }
}

/// ` as NAME`, or nothing.
pub fn push_as(name: Option<&RcStr>, out: &mut Vec<u8>) -> Result<(), Memory>
    ensures { OnOk result
        (out.new.items ≡ out.old.items ++ as_text (plain_name (option_copied name.entry))) }
{
    if let Some(name) = name {
        out.extend_from_slice(b" as ")?;
        push_name(name, out)?;
    }
    Ok(())
}
