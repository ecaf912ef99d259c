//! The names that statements bind. Each call appends them in order.
ghost use Rattle.std.specs.Prelude.{◌≡◌, ◌++◌, OnOk, option_copied, option_to_list};
ghost use Rattle.model_tree.specs.Syntax.{statements, handlers};
ghost use Rattle.model_says.specs.Variables.{names_bound, names_of, names_of_branch, names_of_handlers};
ghost use Rattle.aio_program.specs.Target.{plain_branch, plain_name};

use crate::name::Name;
use aio_base::Memory;
use aio_program::{Handler, Statement, StatementCase, StatementList};
use std::rc::RcStr;

/// The names that statements bind.
#[cycle(bound)]
pub fn push_all(names: &mut Vec<Name>, items: &[Statement]) -> Result<(), Memory>
    ensures { OnOk result (names.new.items ≡ names.old.items ++ names_of (statements items.now)) }
{
    for item in items {
        push_bound(names, item)?;
    }
    Ok(())
}

#[cycle(bound)]
fn push_bound(names: &mut Vec<Name>, statement: &Statement) -> Result<(), Memory>
    ensures { OnOk result (names.new.items ≡ names.old.items ++ names_bound statement.now) }
{
    match statement.case() {
        StatementCase::Assign(name, _) => push_name(names, Some(name)),
        StatementCase::YieldFrom(into, _) => push_name(names, into),
        StatementCase::If(_, body, otherwise) => {
            push_all(names, body.items())?;
            push_branch(names, otherwise)
        }
        StatementCase::While(_, body) => push_all(names, body.items()),
        StatementCase::Try(body, clauses, finally) => {
            push_all(names, body.items())?;
            push_handlers(names, clauses)?;
            push_branch(names, finally)
        }
        StatementCase::With(_, name, body) => {
            push_name(names, Some(name))?;
            push_all(names, body.items())
        }
        _ => Ok(()),
    }
}

#[cycle(bound)]
fn push_branch(names: &mut Vec<Name>, branch: Option<&StatementList>) -> Result<(), Memory>
    ensures { OnOk result
        (names.new.items
        ≡ names.old.items ++ names_of_branch (plain_branch (option_copied branch.entry))) }
{
    match branch {
        Some(body) => push_all(names, body.items()),
        None => Ok(()),
    }
}

#[cycle(bound)]
fn push_handlers(names: &mut Vec<Name>, clauses: &[Handler]) -> Result<(), Memory>
    ensures { OnOk result
        (names.new.items ≡ names.old.items ++ names_of_handlers (handlers clauses.now)) }
{
    for clause in clauses {
        push_name(names, clause.name())?;
        push_all(names, clause.body().items())?;
    }
    Ok(())
}

fn push_name(names: &mut Vec<Name>, name: Option<&RcStr>) -> Result<(), Memory>
    ensures { OnOk result
        (names.new.items
        ≡ names.old.items ++ option_to_list (plain_name (option_copied name.entry))) }
{
    if let Some(name) = name {
        names.push(Name::of(name.clone()?))?;
    }
    Ok(())
}
