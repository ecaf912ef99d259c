//! The last line of a transcript.
ghost use Rattle.std.specs.Prelude.{◌≡◌, ◌++◌, OnOk, OnErr, codes};
ghost use Rattle.std.specs.Fmt.{decimal};
ghost use Rattle.model_wire.specs.Trace.{line, end_text};

use crate::actions::{push_id, push_number, push_text};
use aio_base::{Exc, Memory, Value, show, show_exc};
use aio_wire::Call;
use aio_written::push_call;
use std::alloc::Global;

/// What the last line of a transcript tells: one case for each.
pub type End = model_wire::End<Value, Exc, Call>;

/// Appends the last line. Want of memory appends nothing.
pub fn last_line(alloc: Global, end: &End, out: &mut Vec<u8>) -> Result<(), Memory>
    ensures ok { OnOk result (out.new.items ≡ out.old.items ++ line (end_text end.now)) }
    ensures err { OnErr result (out.new.items ≡ out.old.items) }
{
    let mut text = Vec::new(alloc);
    push_end(alloc, end, &mut text)?;
    push_text(b"\n", &mut text)?;
    out.extend_from_slice(text.as_slice())?;
    Ok(())
}

/// Appends the text of an end. On `Memory` a front of it may stand there.
fn push_end(alloc: Global, end: &End, out: &mut Vec<u8>) -> Result<(), Memory>
    ensures { OnOk result (out.new.items ≡ out.old.items ++ end_text end.now) }
{
    match end {
        End::Returned(value) => {
            push_text(b"= returned ", out)?;
            show(alloc, value, out)
        }
        End::Raised(fault) => {
            push_text(b"= raised ", out)?;
            show_exc(alloc, fault, out)
        }
        End::Cancelled => push_text(b"= cancelled", out),
        End::WordsRefused => push_text(b"! words", out),
        End::ScriptRefused { line, cause } => push_refusal(alloc, b"! script ", *line, *cause, out),
        End::JournalRefused { line, cause } => {
            push_refusal(alloc, b"! journal ", *line, *cause, out)
        }
        End::Mismatch { count, call } => {
            push_number(alloc, b"! mismatch ", *count, out)?;
            push_text(b" ", out)?;
            push_call(alloc, call, out)
        }
        End::Over(call) => {
            push_text(b"! over ", out)?;
            push_call(alloc, call, out)
        }
        End::Stalled => push_text(b"= stalled", out),
        End::Runaway(task) => push_id(alloc, b"= runaway T", *task, out),
        End::ShelfFault => push_text(b"! fault shelf", out),
        End::WireFault => push_text(b"! fault wire", out),
        End::Turns(limit) => push_number(alloc, b"= turns ", *limit, out),
    }
}

fn push_refusal(
    alloc: Global,
    front: &[u8],
    number: u64,
    cause: u8,
    out: &mut Vec<u8>,
) -> Result<(), Memory>
    ensures { OnOk result (out.new.items
        ≡ out.old.items ++ (front.now ++ decimal number ++ codes " " ++ decimal cause)) }
{
    push_number(alloc, front, number, out)?;
    push_number(alloc, b" ", u64::from(cause), out)
}
