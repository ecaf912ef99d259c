//! The text of what a handle runs. Each function appends; on `Memory` a front of its text may stand there.
ghost use Rattle.std.specs.Prelude.{◌≡◌, ◌++◌, OnOk, codes};
ghost use Rattle.std.specs.Fmt.{decimal, signed_decimal};
ghost use Rattle.model_wire.specs.Trace.{action_text, news_word};

use aio_base::{Action, ChildItem, Memory};
use std::alloc::Global;

/// Appends the text of an action.
pub fn push_action(alloc: Global, action: &Action, out: &mut Vec<u8>) -> Result<(), Memory>
    ensures { OnOk result (out.new.items ≡ out.old.items ++ action_text action.now) }
{
    match action {
        Action::Step(task) => push_id(alloc, b"step T", *task, out),
        Action::StepInCycle { task, .. } => push_id(alloc, b"step T", *task, out),
        Action::Wakeup(task) => push_id(alloc, b"wakeup T", *task, out),
        Action::SleepDone { task, .. } => push_id(alloc, b"sleepdone T", *task, out),
        Action::GroupDone { group, task } => {
            push_id(alloc, b"groupdone G", *group, out)?;
            push_id(alloc, b" T", *task, out)
        }
        Action::Fires(timeout) => push_id(alloc, b"timeout O", *timeout, out),
        Action::MainDone => push_text(b"maindone", out),
        Action::Made(conn) => push_id(alloc, b"made C", *conn, out),
        Action::StartRead(conn) => push_id(alloc, b"startread C", *conn, out),
        Action::Lost { conn, .. } => push_id(alloc, b"lost C", *conn, out),
        Action::HandlerDone { conn, .. } => push_id(alloc, b"handlerdone C", *conn, out),
        Action::ReadableServer(server) => push_id(alloc, b"readable L", *server, out),
        Action::Readable(conn) => push_id(alloc, b"readable C", *conn, out),
        Action::Writable(conn) => push_id(alloc, b"writable C", *conn, out),
        Action::Up(conn) => push_id(alloc, b"up C", *conn, out),
        Action::Down(conn) => push_id(alloc, b"down C", *conn, out),
        Action::WritableChild(child) => push_id(alloc, b"writable P", *child, out),
        Action::ChildItem { child, item } => {
            push_id(alloc, b"childitem P", *child, out)?;
            push_text(b" ", out)?;
            push_text(news_word(item), out)
        }
        Action::LostChild { child, .. } => push_id(alloc, b"lost P", *child, out),
        Action::ExtraItem { code, .. } => push_code(alloc, *code, out),
        Action::Extra(key) => push_number(alloc, b"extra ", *key, out),
    }
}

/// The word of what a child or one of its pipes tells.
fn news_word(item: &ChildItem) -> &'static [u8]
    ensures { result.now ≡ news_word item.now }
{
    match item {
        ChildItem::Broken => b"broken",
        ChildItem::Out(_) => b"out",
        ChildItem::OutEnd => b"outend",
        ChildItem::Errs(_) => b"err",
        ChildItem::ErrsEnd => b"errend",
        ChildItem::Exit(_) => b"exit",
    }
}

/// Appends a text.
pub fn push_text(text: &[u8], out: &mut Vec<u8>) -> Result<(), Memory>
    ensures { OnOk result (out.new.items ≡ out.old.items ++ text.now) }
{
    out.extend_from_slice(text)?;
    Ok(())
}

/// Appends a front and a number.
pub fn push_number(
    alloc: Global,
    front: &[u8],
    number: u64,
    out: &mut Vec<u8>,
) -> Result<(), Memory>
    ensures { OnOk result (out.new.items ≡ out.old.items ++ (front.now ++ decimal number)) }
{
    out.extend_from_slice(front)?;
    out.extend_from_slice(number.to_string(alloc)?.as_bytes())?;
    Ok(())
}

/// Appends a front, which ends with an id's letter, and the id's number.
pub fn push_id(alloc: Global, front: &[u8], id: u32, out: &mut Vec<u8>) -> Result<(), Memory>
    ensures { OnOk result (out.new.items ≡ out.old.items ++ (front.now ++ decimal id)) }
{
    push_number(alloc, front, u64::from(id), out)
}

fn push_code(alloc: Global, code: i64, out: &mut Vec<u8>) -> Result<(), Memory>
    ensures { OnOk result
        (out.new.items ≡ out.old.items ++ (codes "extra " ++ signed_decimal code)) }
{
    out.extend_from_slice(b"extra ")?;
    out.extend_from_slice(code.to_string(alloc)?.as_bytes())?;
    Ok(())
}
