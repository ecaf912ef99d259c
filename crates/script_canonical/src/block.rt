//! The text of statements inside so many blocks. Each call appends it, and on
//! `Memory` leaves a front of it.
ghost use Rattle.std.specs.Prelude.{◌≡◌, ◌<◌, ◌≤◌, suc, [], ◌∷◌, ◌++◌, length, OnOk, option_copied, codes};
ghost use Rattle.std.specs.List.{repeat};
ghost use Rattle.model_tree.specs.Syntax.{statements, handlers};
ghost use Rattle.model_text.specs.Canonical.{line_in, statement_text, statements_text, branch_text, handlers_text};
ghost use Rattle.aio_program.specs.Target.{plain_branch};
ghost use Rattle.script_canonical.specs.FirstLine.{sections_text};

use crate::head::{push_as, push_head};
use aio_base::{Memory, name_of};
use aio_program::{Handler, Statement, StatementCase, StatementList};
use std::alloc::Global;

/// The statements of a section, which stand inside one block more. The text so far has more bytes
/// than blocks are open, so one more can be counted.
#[cycle(block)]
pub fn push_section(
    alloc: Global,
    section: &StatementList,
    blocks: usize,
    out: &mut Vec<u8>,
) -> Result<(), Memory>
    requires { blocks < length out.old.items }
    ensures { OnOk result
        (out.new.items ≡ out.old.items ++ statements_text (statements section.now) (suc blocks)) }
{
    push_statements(alloc, section.items(), blocks + 1, out)
}

#[cycle(block)]
fn push_statements(
    alloc: Global,
    items: &[Statement],
    blocks: usize,
    out: &mut Vec<u8>,
) -> Result<(), Memory>
    requires { blocks ≤ length out.old.items }
    ensures { OnOk result
        (out.new.items ≡ out.old.items ++ statements_text (statements items.now) blocks) }
{
    for item in items {
        push_statement(alloc, item, blocks, out)?;
    }
    Ok(())
}

#[cycle(block)]
fn push_statement(
    alloc: Global,
    statement: &Statement,
    blocks: usize,
    out: &mut Vec<u8>,
) -> Result<(), Memory>
    requires { blocks ≤ length out.old.items }
    ensures { OnOk result (out.new.items ≡ out.old.items ++ statement_text statement.now blocks) }
{
    push_indentation(blocks, out)?;
    push_head(alloc, statement, out)?;
    out.push(b'\n')?;
    push_sections(alloc, statement, blocks, out)
}

/// What stands behind a statement's first line.
#[cycle(block)]
fn push_sections(
    alloc: Global,
    statement: &Statement,
    blocks: usize,
    out: &mut Vec<u8>,
) -> Result<(), Memory>
    requires { blocks < length out.old.items }
    ensures { OnOk result (out.new.items ≡ out.old.items ++ sections_text statement.now blocks) }
{
    match statement.case() {
        StatementCase::If(_, body, otherwise) => {
            push_section(alloc, body, blocks, out)?;
            push_branch(alloc, "else", otherwise, blocks, out)?;
            push_line("end", blocks, out)
        }
        StatementCase::While(_, body) | StatementCase::With(_, _, body) => {
            push_section(alloc, body, blocks, out)?;
            push_line("end", blocks, out)
        }
        StatementCase::Try(body, clauses, finally) => {
            push_section(alloc, body, blocks, out)?;
            push_handlers(alloc, clauses, blocks, out)?;
            push_branch(alloc, "finally", finally, blocks, out)?;
            push_line("end", blocks, out)
        }
        _ => Ok(()),
    }
}

/// A section behind its word, if it is there.
#[cycle(block)]
fn push_branch(
    alloc: Global,
    word: &str,
    branch: Option<&StatementList>,
    blocks: usize,
    out: &mut Vec<u8>,
) -> Result<(), Memory>
    requires { blocks ≤ length out.old.items }
    ensures { OnOk result
        (out.new.items
        ≡ out.old.items
        ++ branch_text (plain_branch (option_copied branch.entry)) word.now blocks) }
{
    match branch {
        Some(section) => {
            push_line(word, blocks, out)?;
            push_section(alloc, section, blocks, out)
        }
        None => Ok(()),
    }
}

#[cycle(block)]
fn push_handlers(
    alloc: Global,
    clauses: &[Handler],
    blocks: usize,
    out: &mut Vec<u8>,
) -> Result<(), Memory>
    requires { blocks ≤ length out.old.items }
    ensures { OnOk result
        (out.new.items ≡ out.old.items ++ handlers_text (handlers clauses.now) blocks) }
{
    for clause in clauses {
        push_handler(alloc, clause, blocks, out)?;
    }
    Ok(())
}

#[cycle(block)]
fn push_handler(
    alloc: Global,
    handler: &Handler,
    blocks: usize,
    out: &mut Vec<u8>,
) -> Result<(), Memory>
    requires { blocks ≤ length out.old.items }
    ensures { OnOk result
        (out.new.items ≡ out.old.items ++ handlers_text (handlers (handler.now ∷ [])) blocks) }
{
    push_indentation(blocks, out)?;
    out.extend_from_slice(b"except ")?;
    out.extend_from_slice(name_of(handler.kind()).as_bytes())?;
    push_as(handler.name(), out)?;
    out.push(b'\n')?;
    push_section(alloc, handler.body(), blocks, out)
}

/// Appends a line with the indent of so many open blocks, and its newline.
pub fn push_line(text: &str, blocks: usize, out: &mut Vec<u8>) -> Result<(), Memory>
    ensures { OnOk result (out.new.items ≡ out.old.items ++ line_in blocks text.now) }
{
    push_indentation(blocks, out)?;
    out.extend_from_slice(text.as_bytes())?;
    out.push(b'\n')?;
    Ok(())
}

fn push_indentation(blocks: usize, out: &mut Vec<u8>) -> Result<(), Memory>
    ensures { OnOk result (out.new.items ≡ out.old.items ++ repeat blocks (codes "  ")) }
{
    for block in 0..blocks {
        out.extend_from_slice(b"  ")?;
    }
    Ok(())
}
