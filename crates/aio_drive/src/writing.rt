//! Writing to a sink.
ghost use Rattle.std.specs.Prelude.{◌≡◌, OnOk, IfOk, IfErr};
ghost use Rattle.model_wire.specs.Told.{took};
ghost use Rattle.aio_drive.specs.Writing.{StopsWriting};

use crate::halt::Halt;
use aio_wire::{Sink, SinkTook};
use std::alloc::Global;

/// Hands all of a text to a sink. Where it stops before, the sink took a front of the text.
pub fn write_all<K: Sink>(alloc: Global, out: &mut K, text: &[u8]) -> Result<(), Halt>
    ensures ok { OnOk result (K.seen out.new ≡ took (K.seen out.old) text.now) }
    ensures err { IfErr result (StopsWriting text.now (K.seen out.old) (K.seen out.new)) }
{
    let mut rest = text;
    while !rest.is_empty() {
        match out.write(alloc, rest)? {
            SinkTook::Took(count) => rest = &rest[count..],
            SinkTook::Failed => return Err(Halt::Sink),
        }
    }
    Ok(())
}

/// Writes a text, and answers this status.
pub fn tell<K: Sink>(alloc: Global, text: &[u8], status: u8, out: &mut K) -> Result<u8, Halt>
    ensures ok { IfOk result
        (λ told. (told ≡ status) × (K.seen out.new ≡ took (K.seen out.old) text.now)) }
    ensures err { IfErr result (StopsWriting text.now (K.seen out.old) (K.seen out.new)) }
{
    write_all(alloc, out, text)?;
    Ok(status)
}

/// The same of a line.
pub fn say<K: Sink>(alloc: Global, line: &str, status: u8, out: &mut K) -> Result<u8, Halt>
    ensures ok { IfOk result
        (λ told. (told ≡ status) × (K.seen out.new ≡ took (K.seen out.old) line.now)) }
    ensures err { IfErr result (StopsWriting line.now (K.seen out.old) (K.seen out.new)) }
{
    tell(alloc, line.as_bytes(), status, out)
}
