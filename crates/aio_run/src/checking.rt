//! Checking a script.
ghost use Rattle.std.specs.Prelude.{◌≡◌};
ghost use Rattle.model_wire.specs.Told.{NoneFailed};
ghost use Rattle.model_program.specs.Program.{MayCheck};
ghost use Rattle.aio_run.specs.Writes.{Writes};

use crate::script::{read_script, refuse};
use aio_drive::{Halt, tell};
use aio_script::print;
use aio_wire::{Shelf, Sink};
use std::alloc::Global;

/// Writes the canonical text of a script, or why it is none.
pub fn check<F: Shelf, K: Sink>(
    alloc: Global,
    script: &str,
    shelf: &mut F,
    out: &mut K,
) -> Result<u8, Halt>
    ensures written { Writes (MayCheck (F.seen shelf.old) (F.seen shelf.new) script.now)
        (NoneFailed (F.seen shelf.old) (F.seen shelf.new))
        (K.seen out.old) (K.seen out.new) result }
    ensures files { (F.seen shelf.new).file ≡ (F.seen shelf.old).file }
{
    match read_script(alloc, script, shelf) {
        Ok(script) => {
            let text = print(alloc, &script)?;
            tell(alloc, text.as_slice(), 0, out)
        }
        Err(none) => refuse(alloc, none, out),
    }
}
