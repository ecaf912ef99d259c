//! Commands and their words.
ghost use Rattle.std.specs.Prelude.{◌≡◌, [], ◌∷◌, map, string_bytes, IfSome};
ghost use Rattle.std.specs.Option.{option_map};
ghost use Rattle.model_words.specs.Words.{command_of as plain_command_of, check_of, replay_of, run_of, work_of, is_name};
ghost use Rattle.aio_words.specs.Commands.{AllowsSome, plain_command};

use crate::given::{Given, Verb, command_from};
use aio_text::number;

/// What the words ask for.
#[derive(Clone, Copy)]
pub enum Command<'a> {
    /// Writes a script's canonical text.
    Check {
        script: &'a str,
    },
    /// Runs a script over a journal's answers, of at most so many turns.
    Replay {
        script: &'a str,
        journal: &'a str,
        trace: bool,
        turns: u64,
    },
    /// Runs a script over the outside's answers, of at most so many turns. Where a file is named,
    /// each answer is recorded in it.
    Run {
        script: &'a str,
        recorded: Option<&'a str>,
        trace: bool,
        turns: u64,
    },
    /// Runs the work that a seed makes.
    Work {
        seed: u64,
    },
}

/// What the words ask for, where they ask for something: `check SCRIPT`, `replay SCRIPT JOURNAL`
/// or `run SCRIPT` with `--trace` and `--turns N` among the names in any order, and in `run` with
/// `--record NAME` too, or `work N`. No name is empty or begins with a dash, at least one turn is
/// allowed, and a seed has 1 to 6 digits.
pub fn command_of(words: &[String]) -> Option<Command<'_>>
    ensures command { option_map plain_command result
        ≡ plain_command_of (map string_bytes words.now) }
    ensures some { IfSome result AllowsSome }
{
    match words {
        [] => None,
        [verb, others @ ..] => command_with(verb.as_str(), others),
    }
}

fn command_with<'a>(verb: &str, words: &'a [String]) -> Option<Command<'a>>
    ensures command { option_map plain_command result
        ≡ plain_command_of (verb.now ∷ map string_bytes words.now) }
    ensures some { IfSome result AllowsSome }
{
    if verb == "check" {
        check_of(words)
    } else if verb == "replay" {
        replay_of(words)
    } else if verb == "run" {
        run_of(words)
    } else if verb == "work" {
        work_of(words)
    } else {
        None
    }
}

fn check_of(words: &[String]) -> Option<Command<'_>>
    ensures command { option_map plain_command result ≡ check_of (map string_bytes words.now) }
    ensures some { IfSome result AllowsSome }
{
    match words {
        [script] => check_script(script.as_str()),
        _ => None,
    }
}

fn check_script(script: &str) -> Option<Command<'_>>
    ensures command { option_map plain_command result ≡ check_of (script.now ∷ []) }
    ensures some { IfSome result AllowsSome }
{
    if is_name(script) {
        Some(Command::Check { script })
    } else {
        None
    }
}

fn replay_of(words: &[String]) -> Option<Command<'_>>
    ensures command { option_map plain_command result ≡ replay_of (map string_bytes words.now) }
    ensures some { IfSome result AllowsSome }
{
    command_from(Given::none(Verb::Replay), words)
}

fn run_of(words: &[String]) -> Option<Command<'_>>
    ensures command { option_map plain_command result ≡ run_of (map string_bytes words.now) }
    ensures some { IfSome result AllowsSome }
{
    command_from(Given::none(Verb::Run), words)
}

fn work_of(words: &[String]) -> Option<Command<'_>>
    ensures command { option_map plain_command result ≡ work_of (map string_bytes words.now) }
    ensures some { IfSome result AllowsSome }
{
    match words {
        [seed] => work_seed(seed.as_str().as_bytes()),
        _ => None,
    }
}

/// The work of a seed of 1 to 6 digits.
fn work_seed<'a>(seed: &[u8]) -> Option<Command<'a>>
    ensures command { option_map plain_command result ≡ work_of (seed.now ∷ []) }
    ensures some { IfSome result AllowsSome }
{
    if seed.len() > 6 {
        return None;
    }
    let seed = number(seed)?;
    Some(Command::Work { seed })
}

/// Whether a word names a file: it is not empty and does not begin with a dash.
pub(crate) fn is_name(word: &str) -> bool
    ensures { result ≡ is_name word.now }
{
    match word.as_bytes() {
        [] => false,
        [first, ..] => *first != b'-',
    }
}
