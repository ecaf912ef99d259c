//! A script of the shelf, or why there is none.
ghost use Rattle.std.specs.Prelude.{◌≡◌, IfOk, IfErr, OnOk, string_bytes};
ghost use Rattle.model_wire.specs.Trace.{line};
ghost use Rattle.aio_run.specs.Script.{SpellsScript, IsMissing, Tells, refusal_text};
ghost use Rattle.aio_run.specs.Writes.{Writes};

use aio_drive::{Halt, say};
use aio_memwire::{ReadFault, read_front};
use aio_script::{Program, ScriptFault, read};
use aio_wire::{Shelf, Sink};
use std::alloc::{AllocError, Global};

/// How much of a script is read: a byte more than the longest text has.
const FRONT: usize = 1_048_577;

/// Why there is no script.
#[derive(Clone, Copy, PartialEq, Eq)]
pub enum NoScript {
    /// The text has its first fault at this line, and of this cause.
    Refused { line: u64, cause: u8 },
    /// The shelf failed.
    Failed,
    Memory,
}

/// Reads a script of the shelf. Of a text that is too long it holds a byte more than the longest
/// has.
pub fn read_script<F: Shelf>(alloc: Global, name: &str, shelf: &mut F) -> Result<Program, NoScript>
    ensures script { IfOk result (SpellsScript ((F.seen shelf.old).file name.now)) }
    ensures kept { OnOk result (F.seen shelf.new ≡ F.seen shelf.old) }
    ensures none { IfErr result (IsMissing name.now (F.seen shelf.old) (F.seen shelf.new)) }
    ensures files { (F.seen shelf.new).file ≡ (F.seen shelf.old).file }
{
    match read_front(alloc, shelf, name, FRONT) {
        Ok(text) => match read(alloc, text.as_slice()) {
            Ok(script) => Ok(script),
            Err(ScriptFault::Refused { line, cause }) => Err(NoScript::Refused { line, cause }),
            Err(ScriptFault::Memory) => Err(NoScript::Memory),
        },
        Err(ReadFault::Failed) => Err(NoScript::Failed),
        Err(ReadFault::Memory) => Err(NoScript::Memory),
    }
}

/// Writes why there is no script.
pub fn refuse<K: Sink>(alloc: Global, none: NoScript, out: &mut K) -> Result<u8, Halt>
    ensures { Writes (Tells none) (none ≡ NoScript.Memory) (K.seen out.old) (K.seen out.new)
        result }
{
    match none {
        NoScript::Refused { line, cause } => {
            let text = refusal(alloc, line, cause)?;
            say(alloc, text.as_str(), 3, out)
        }
        NoScript::Failed => say(alloc, "! fault shelf\n", 9, out),
        NoScript::Memory => Err(Halt::Memory),
    }
}

fn refusal(alloc: Global, number: u64, cause: u8) -> Result<String, AllocError>
    ensures { IfOk result (λ text. string_bytes text ≡ line (refusal_text number cause)) }
{
    format!(in alloc; "! script {number} {cause}\n")
}
