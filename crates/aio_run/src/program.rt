//! What the program does for its words.
ghost use Rattle.std.specs.Prelude.{◌≡◌, None, map, string_bytes};
ghost use Rattle.model_words.specs.Words.{command_of as plain_command_of};
ghost use Rattle.model_commands.specs.Outputs.{IsUnbegun, KeepsFiles, KeepsWire, MayWrite};
ghost use Rattle.model_commands.specs.Promise.{Behaves};
ghost use Rattle.aio_run.specs.Running.{between, told_by};
ghost use Rattle.aio_run.specs.Writes.{Writes};

use crate::checking::check;
use crate::replaying::replay;
use crate::running::run;
use crate::working::work;
use aio_drive::{Halt, Manner, say};
use aio_wire::{Shelf, Sink, Wire};
use aio_words::{Command, command_of};
use std::alloc::Global;

/// Does all that the program does for the words behind its name, and answers the exit status.
///
/// `check SCRIPT` writes the canonical text of a script of the shelf to the sink.
/// `replay SCRIPT JOURNAL` runs a script of the shelf over the answers of a journal of the shelf,
/// and writes the transcript; `run SCRIPT` runs it over the wire. In both, `--trace` adds a line
/// for each call, answer and handle, and `--turns N` allows so many turns. With `--record NAME` a
/// run appends each answer to that file, those of a turn before the turn's lines are written.
/// `work N` runs a script that is made from the number, in memory, and writes on one line how many
/// tasks it made, how many calls it asked and how many lines it printed. The statuses: 0, the
/// script was checked, or main returned; 1, main raised or was cancelled; 2, the words are refused;
/// 3, the script is; 4, a line of the journal that is needed is refused; 5, an answer doesn't fit
/// its call; 6, no answer is left; 7, nothing is pending and nothing can come; 8, a step has too
/// many statements; 9, the shelf, the wire or the sink failed; 10, as many turns were made as are
/// allowed; 11, memory was refused.
pub fn aio_main<F: Shelf, W: Wire, K: Sink>(
    alloc: Global,
    words: &Vec<String>,
    shelf: &mut F,
    wire: &mut W,
    out: &mut K,
) -> u8
    ensures { Behaves (map string_bytes words.now.items)
        (record {
          shelf = shelf.old;
          wire = wire.old;
          files = F.seen shelf.old;
          told = W.outside.seen wire.old;
          fails = W.outside.fails wire.old;
          sink = K.seen out.old;
        })
        (record {
          shelf = shelf.new;
          wire = wire.new;
          files = F.seen shelf.new;
          told = W.outside.seen wire.new;
          fails = W.outside.fails wire.new;
          sink = K.seen out.new;
        })
        result }
{
    match serve(alloc, words.as_slice(), shelf, wire, out) {
        Ok(status) => status,
        Err(Halt::Memory) => 11,
        Err(Halt::Sink) => 9,
    }
}

/// Does what the words ask for.
fn serve<F: Shelf, W: Wire, K: Sink>(
    alloc: Global,
    words: &[String],
    shelf: &mut F,
    wire: &mut W,
    out: &mut K,
) -> Result<u8, Halt>
    ensures written { let it = told_by result
        (between (F.seen shelf.old) (F.seen shelf.new) (W.outside.seen wire.old)
        (W.outside.seen wire.new)) (wire.new ≡ wire.old) (W.outside.fails wire.old) in
        let command = plain_command_of (map string_bytes words.now) in
        Writes (MayWrite it command) (IsUnbegun it command)
        (K.seen out.old) (K.seen out.new) result }
    ensures files { KeepsFiles (plain_command_of (map string_bytes words.now))
        (F.seen shelf.old) (F.seen shelf.new) }
    ensures wire { KeepsWire (plain_command_of (map string_bytes words.now))
        (F.seen shelf.old) wire.old wire.new }
    ensures words { plain_command_of (map string_bytes words.now) ≡ None → shelf.new ≡ shelf.old }
{
    match command_of(words) {
        Some(Command::Check { script }) => check(alloc, script, shelf, out),
        Some(
            Command::Replay {
                script,
                journal,
                trace,
                turns,
            },
        ) => replay(alloc, script, journal, Manner { trace, turns }, shelf, out),
        Some(
            Command::Run {
                script,
                recorded,
                trace,
                turns,
            },
        ) => {
            let manner = Manner { trace, turns };
            run(alloc, script, recorded, manner, shelf, wire, out)
        }
        Some(Command::Work { seed }) => work(alloc, seed, out),
        None => say(alloc, "! words\n", 2, out),
    }
}
