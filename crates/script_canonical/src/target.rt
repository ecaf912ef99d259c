//! The text of targets and managers. Each call appends it, and on `Memory` leaves a front of it.
ghost use Rattle.std.specs.Prelude.{◌≡◌, ◌++◌, OnOk};
ghost use Rattle.model_tree.specs.Syntax.{exprs};
ghost use Rattle.model_text.specs.Canonical.{target_text, manager_text, exprs_text, in_parentheses};
ghost use Rattle.aio_program.specs.Target.{plain_target, plain_manager};

use crate::expression::{push_expr, push_exprs, push_more};
use crate::words::push_name;
use aio_base::Memory;
use aio_program::{Manager, Target};
use aio_syntax::{ExprList, name_of_request};
use std::alloc::Global;

/// Appends what stands behind `yield from`.
pub fn push_target(alloc: Global, target: &Target, out: &mut Vec<u8>) -> Result<(), Memory>
    ensures { OnOk result (out.new.items ≡ out.old.items ++ target_text (plain_target target.now)) }
{
    match target {
        Target::Await(name) => push_name(name, out)?,
        Target::Call(coroutine, arguments) => {
            push_call(alloc, coroutine.as_str(), arguments, out)?;
        }
        Target::Ask(request, arguments) => {
            push_call(alloc, name_of_request(*request), arguments, out)?;
        }
        Target::SpawnTask(coroutine, arguments) => {
            out.extend_from_slice(b"spawn(")?;
            push_name(coroutine, out)?;
            push_more(alloc, arguments.items(), out)?;
            out.push(b')')?;
        }
        Target::CreateTask(group, coroutine, arguments) => {
            out.extend_from_slice(b"create(")?;
            push_expr(alloc, group, out)?;
            out.extend_from_slice(b", ")?;
            push_name(coroutine, out)?;
            push_more(alloc, arguments.items(), out)?;
            out.push(b')')?;
        }
        Target::ListenAt(port, handler) => {
            out.extend_from_slice(b"listen(")?;
            push_expr(alloc, port, out)?;
            out.extend_from_slice(b", ")?;
            push_name(handler, out)?;
            out.push(b')')?;
        }
    }
    Ok(())
}

fn push_call(
    alloc: Global,
    name: &str,
    arguments: &ExprList,
    out: &mut Vec<u8>,
) -> Result<(), Memory>
    ensures { OnOk result
        (out.new.items
        ≡ out.old.items ++ (name.now ++ in_parentheses (exprs_text (exprs arguments.now)))) }
{
    out.extend_from_slice(name.as_bytes())?;
    out.push(b'(')?;
    push_exprs(alloc, arguments.items(), out)?;
    out.push(b')')?;
    Ok(())
}

/// Appends what stands behind `with`, up to ` as`.
pub fn push_manager(alloc: Global, manager: &Manager, out: &mut Vec<u8>) -> Result<(), Memory>
    ensures { OnOk result
        (out.new.items ≡ out.old.items ++ manager_text (plain_manager manager.now)) }
{
    match manager {
        Manager::Group => out.extend_from_slice(b"group")?,
        Manager::Timeout(delay) => {
            out.extend_from_slice(b"timeout(")?;
            push_expr(alloc, delay, out)?;
            out.push(b')')?;
        }
    }
    Ok(())
}
