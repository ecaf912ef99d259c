//! The text of values, as `print` and `str` give it.
ghost use Rattle.std.specs.Prelude.{◌≡◌, ◌++◌, OnOk, OnErr};
ghost use Rattle.model_value.specs.Value.{values, excs};
ghost use Rattle.model_value.specs.Shown.{shown, shown_exc, shown_members, quoted, quoted_items, id_text};

use crate::exc::Exc;
use crate::kinds::name_of;
use crate::literal::{push_bytes_literal, push_escaped, push_text_literal};
use crate::memory::Memory;
use crate::value::{Value, ValueCase};
use model_value::{Kind, Place};
use std::alloc::Global;

/// Appends the value's text. Values nest at most as deep as scripts may build them, which is 64.
pub fn show(alloc: Global, value: &Value, out: &mut Vec<u8>) -> Result<(), Memory>
    ensures ok { OnOk result (out.new.items ≡ out.old.items ++ shown value.now) }
    ensures err { OnErr result (out.new.items ≡ out.old.items) }
{
    let mut text = Vec::new(alloc);
    match value.case() {
        ValueCase::Text(bare) => push_escaped(Place::Bare, bare.as_str().as_bytes(), &mut text)?,
        _ => push_quoted(alloc, value, &mut text)?,
    }
    out.extend_from_slice(text.as_slice())?;
    Ok(())
}

/// Appends the exception's text.
pub fn show_exc(alloc: Global, exc: &Exc, out: &mut Vec<u8>) -> Result<(), Memory>
    ensures ok { OnOk result (out.new.items ≡ out.old.items ++ shown_exc exc.now) }
    ensures err { OnErr result (out.new.items ≡ out.old.items) }
{
    let mut text = Vec::new(alloc);
    push_exc(exc, &mut text)?;
    out.extend_from_slice(text.as_slice())?;
    Ok(())
}

// Each function below appends, and on `Memory` leaves a front of the text.

#[cycle(quoted)]
fn push_quoted(alloc: Global, value: &Value, out: &mut Vec<u8>) -> Result<(), Memory>
    ensures { OnOk result (out.new.items ≡ out.old.items ++ quoted value.now) }
{
    match value.case() {
        ValueCase::Nothing => out.extend_from_slice(b"None")?,
        ValueCase::Bool(true) => out.extend_from_slice(b"True")?,
        ValueCase::Bool(false) => out.extend_from_slice(b"False")?,
        ValueCase::Int(number) => {
            out.extend_from_slice(number.to_string(alloc)?.as_bytes())?;
        }
        ValueCase::Text(text) => push_text_literal(text.as_str(), out)?,
        ValueCase::Bytes(bytes) => push_bytes_literal(bytes.as_slice(), out)?,
        ValueCase::List(list) => {
            out.push(b'[')?;
            push_items(alloc, list.as_ref().items(), out)?;
            out.push(b']')?;
        }
        ValueCase::Fut(id) => push_id(alloc, b'F', id, out)?,
        ValueCase::Task(id) => push_id(alloc, b'T', id, out)?,
        ValueCase::Group(id) => push_id(alloc, b'G', id, out)?,
        ValueCase::Timeout(id) => push_id(alloc, b'O', id, out)?,
        ValueCase::Conn(id) => push_id(alloc, b'C', id, out)?,
        ValueCase::Server(id) => push_id(alloc, b'L', id, out)?,
        ValueCase::Child(id) => push_id(alloc, b'P', id, out)?,
        ValueCase::Errs(id) => push_id(alloc, b'E', id, out)?,
        ValueCase::Exc(exc) => push_exc(exc, out)?,
    }
    Ok(())
}

#[cycle(quoted)]
fn push_items(alloc: Global, items: &[Value], out: &mut Vec<u8>) -> Result<(), Memory>
    ensures { OnOk result (out.new.items ≡ out.old.items ++ quoted_items (values items.now)) }
{
    let mut separator: &[u8] = b"";
    for item in items {
        out.extend_from_slice(separator)?;
        push_quoted(alloc, item, out)?;
        separator = b", ";
    }
    Ok(())
}

#[cycle(exc_text)]
fn push_exc(exc: &Exc, out: &mut Vec<u8>) -> Result<(), Memory>
    ensures { OnOk result (out.new.items ≡ out.old.items ++ shown_exc exc.now) }
{
    out.extend_from_slice(name_of(exc.kind()).as_bytes())?;
    out.push(b'(')?;
    push_text_literal(exc.text(), out)?;
    if exc.kind() == Kind::ExceptionGroup {
        out.extend_from_slice(b", [")?;
        push_members(exc.members(), out)?;
        out.push(b']')?;
    }
    out.push(b')')?;
    Ok(())
}

#[cycle(exc_text)]
fn push_members(members: &[Exc], out: &mut Vec<u8>) -> Result<(), Memory>
    ensures { OnOk result (out.new.items ≡ out.old.items ++ shown_members (excs members.now)) }
{
    let mut before: &[u8] = b"";
    for member in members {
        out.extend_from_slice(before)?;
        push_exc(member, out)?;
        before = b", ";
    }
    Ok(())
}

fn push_id(alloc: Global, letter: u8, id: u32, out: &mut Vec<u8>) -> Result<(), Memory>
    ensures { OnOk result (out.new.items ≡ out.old.items ++ id_text letter id) }
{
    out.push(letter)?;
    out.extend_from_slice(id.to_string(alloc)?.as_bytes())?;
    Ok(())
}
