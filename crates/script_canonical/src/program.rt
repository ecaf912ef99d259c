//! The text of coroutines and programs.
ghost use Rattle.std.specs.Prelude.{◌≡◌, ◌++◌, map, OnOk, IfOk};
ghost use Rattle.std.specs.Rc.{rc_str_bytes};
ghost use Rattle.model_text.specs.Canonical.{names_text, coroutine_text, coroutines_text, profile_text, canonical};

use crate::block::{push_line, push_section};
use crate::words::push_name;
use aio_base::Memory;
use aio_program::{Coroutine, Program};
use std::alloc::{AllocError, Global};
use std::rc::RcStr;

/// The canonical text of a program.
/// Source: PEP 8, "Whitespace in Expressions and Statements", with two spaces for a block.
pub fn print(alloc: Global, program: &Program) -> Result<Vec<u8>, AllocError>
    ensures { IfOk result (λ text. text.items ≡ canonical program.now) }
{
    let mut out = Vec::new(alloc);
    match push_program(alloc, program, &mut out) {
        Ok(()) => Ok(out),
        Err(Memory) => Err(AllocError),
    }
}

// Each function below appends, and on `Memory` leaves a front of the text.

fn push_program(alloc: Global, program: &Program, out: &mut Vec<u8>) -> Result<(), Memory>
    ensures { OnOk result (out.new.items ≡ out.old.items ++ canonical program.now) }
{
    push_profile(alloc, program.profile(), out)?;
    push_coroutines(alloc, program.coroutines(), out)?;
    Ok(())
}

/// The first profile has no line.
fn push_profile(alloc: Global, profile: u64, out: &mut Vec<u8>) -> Result<(), Memory>
    ensures { OnOk result (out.new.items ≡ out.old.items ++ profile_text profile) }
{
    if profile != 1 {
        out.extend_from_slice(b"profile ")?;
        out.extend_from_slice(profile.to_string(alloc)?.as_bytes())?;
        out.push(b'\n')?;
    }
    Ok(())
}

fn push_coroutines(alloc: Global, coroutines: &[Coroutine], out: &mut Vec<u8>) -> Result<(), Memory>
    ensures { OnOk result (out.new.items ≡ out.old.items ++ coroutines_text coroutines.now) }
{
    for coroutine in coroutines {
        push_coroutine(alloc, coroutine, out)?;
    }
    Ok(())
}

fn push_coroutine(alloc: Global, coroutine: &Coroutine, out: &mut Vec<u8>) -> Result<(), Memory>
    ensures { OnOk result (out.new.items ≡ out.old.items ++ coroutine_text coroutine.now) }
{
    out.extend_from_slice(b"def ")?;
    push_name(coroutine.name(), out)?;
    out.push(b'(')?;
    push_names(coroutine.parameters(), out)?;
    out.extend_from_slice(b")\n")?;
    push_section(alloc, coroutine.body(), 0, out)?;
    push_line("end", 0, out)
}

/// Names with `, ` between them.
fn push_names(names: &[RcStr], out: &mut Vec<u8>) -> Result<(), Memory>
    ensures { OnOk result
        (out.new.items ≡ out.old.items ++ names_text (map rc_str_bytes names.now)) }
{
    let mut before: &[u8] = b"";
    for name in names {
        out.extend_from_slice(before)?;
        push_name(name, out)?;
        before = b", ";
    }
    Ok(())
}
