//! One entry: a line and its answer.
ghost use Rattle.std.specs.Prelude.{◌≡◌, ◌++◌, IfOk, OnOk, OnErr};
ghost use Rattle.std.specs.List.{list_any};
ghost use Rattle.model_wire.specs.Call.{written};
ghost use Rattle.model_wire.specs.JournalText.{tokens_of, is_too_wide};
ghost use Rattle.aio_journal.specs.Entries.{EntryIs};
ghost use Rattle.aio_journal.specs.declared.entry.EntryFault.TheVariants.{Refused, Memory as OutOfMemory};

use crate::answers::{exits_fit, read_answer};
use crate::tokens::EntryToken;
use crate::words::Words;
use aio_base::Memory;
use aio_wire::{Answer, JournalFault};
use aio_written::push_answer;
use std::alloc::Global;
use thiserror::Error;

/// The most bytes of a line.
const MOST_LINE: usize = 2_097_152;

/// The line is no entry.
const NO_FORM: u8 = 1;

/// A number is too great or too small.
const BAD_NUMBER: u8 = 2;

/// The line is too long.
const TOO_LONG: u8 = 3;

/// Why a line has no answer.
#[derive(Clone, Copy, Debug, PartialEq, Eq, Error)]
pub enum EntryFault {
    /// The line is refused. The cause is 1 where it is no entry, 2 where a number is too great or too small, and 3 where
    /// it has more than 2,097,152 bytes.
    #[error("line {}: refused by cause {}", .0.line, .0.cause)]
    Refused(JournalFault),
    #[error("out of memory")]
    Memory,
}

impl From<Memory> for EntryFault {
    ghost from_gives = { λ _ fault. fault ≡ OutOfMemory };

    fn from(_cause: Memory) -> EntryFault {
        EntryFault::Memory
    }
}

/// The answer that a line says, which has this number in its journal. The line is without its newline.
pub fn read_entry(alloc: Global, line: &[u8], number: u64) -> Result<Answer, EntryFault>
    ensures { EntryIs number line.now result }
{
    if line.len() > MOST_LINE {
        return Err(refused(number, TOO_LONG));
    }
    if has_wide(alloc, line)? {
        return Err(refused(number, BAD_NUMBER));
    }
    match read_answer(alloc, &mut Words::new(line))? {
        None => Err(refused(number, NO_FORM)),
        Some(said) => {
            if exits_fit(&said) {
                Ok(said)
            } else {
                Err(refused(number, BAD_NUMBER))
            }
        }
    }
}

fn refused(line: u64, cause: u8) -> EntryFault
    ensures { result ≡ Refused (record { line = line; cause = cause }) }
{
    EntryFault::Refused(JournalFault { line, cause })
}

/// Whether a word of the line is a number that is too great or too small.
fn has_wide(alloc: Global, line: &[u8]) -> Result<bool, Memory>
    ensures { IfOk result (λ wide. wide ≡ list_any is_too_wide (tokens_of line.now)) }
{
    let mut words = Words::new(line);
    while let Some(token) = words.next(alloc)? {
        if is_too_wide(token) {
            return Ok(true);
        }
    }
    Ok(false)
}

fn is_too_wide(token: EntryToken) -> bool
    ensures { result ≡ is_too_wide token }
{
    matches!(token, EntryToken::TooWide)
}

/// Appends an answer as it is written: a line without its newline. Want of memory appends nothing.
pub fn print_entry(alloc: Global, answer: &Answer, out: &mut Vec<u8>) -> Result<(), Memory>
    ensures ok { OnOk result (out.new.items ≡ out.old.items ++ written answer.now) }
    ensures err { OnErr result (out.new.items ≡ out.old.items) }
{
    let mut text = Vec::new(alloc);
    push_answer(alloc, answer, &mut text)?;
    out.extend_from_slice(text.as_slice())?;
    Ok(())
}
