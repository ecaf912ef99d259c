//! Lists of words, one after another, and how many of them asked for something else than they must.
use aio_base::Memory;
use aio_text::next_line;
use aio_words::{Command, command_of};
use std::alloc::Global;
use try_row::{RowsStopped, Wanted};

/// The words of the list that is being read, and what came of those before it.
#[derive(Drop)]
pub struct Lists {
    words: Vec<String>,
    pub count: u64,
    pub differ: u64,
}

impl Lists {
    /// No list so far.
    pub fn new(alloc: Global) -> Lists {
        Lists {
            words: Vec::new(alloc),
            count: 0,
            differ: 0,
        }
    }

    /// Reads the lists of a text: `word WORD` is the next word, and `asks COMMAND` ends a list with what it asks for.
    pub fn read<R: Print>(
        &mut self,
        rt: &R,
        alloc: Global,
        text: &[u8],
    ) -> Result<(), RowsStopped> {
        let mut rest = text;
        for _ in 0..u64::MAX {
            let Some((line, more)) = next_line(rest) else {
                break;
            };
            rest = more;
            if let Some(word) = line.strip_prefix(b"word ") {
                self.take(alloc, word)?;
            } else if let Some(wanted) = line.strip_prefix(b"asks ") {
                self.end(rt, wanted)?;
            }
        }
        Ok(())
    }

    fn take(&mut self, alloc: Global, word: &[u8]) -> Result<(), Memory> {
        if let Ok(word) = str::from_utf8(word) {
            self.words.push(String::from_str(alloc, word)?)?;
        }
        Ok(())
    }

    /// Compares what the list asks for, and prints a line where it is something else.
    fn end<R: Print>(&mut self, rt: &R, wanted: &[u8]) -> Result<(), RowsStopped> {
        self.count = self.count.saturating_add(1);
        let right = is_asked(self.words.as_slice(), wanted);
        self.words.clear();
        if !right {
            self.differ = self.differ.saturating_add(1);
            println!(rt; "list {}: asks something else", self.count)?;
        }
        Ok(())
    }
}

/// Whether words ask for this command, with its names and its options: `replay s j trace 5`. A run without a record has `-` in
/// its place; words that are refused ask for `nothing`.
fn is_asked(words: &[String], wanted: &[u8]) -> bool {
    let mut wanted = Wanted::new(wanted);
    match command_of(words) {
        None => wanted.say(b"nothing"),
        Some(Command::Check { script }) => say_names("check ", script, "", &mut wanted),
        Some(
            Command::Replay {
                script,
                journal,
                trace,
                turns,
            },
        ) => {
            say_names("replay ", script, journal, &mut wanted);
            say_pace(trace, turns, &mut wanted);
        }
        Some(
            Command::Run {
                script,
                recorded,
                trace,
                turns,
            },
        ) => {
            say_names("run ", script, recorded.unwrap_or("-"), &mut wanted);
            say_pace(trace, turns, &mut wanted);
        }
        Some(Command::Work { seed }) => {
            wanted.say(b"work ");
            wanted.say_number(seed);
        }
    }
    wanted.is_told()
}

/// A verb and one or two names.
fn say_names(verb: &str, first: &str, second: &str, wanted: &mut Wanted<'_>) {
    wanted.say(verb.as_bytes());
    wanted.say(first.as_bytes());
    if !second.is_empty() {
        wanted.say(b" ");
        wanted.say(second.as_bytes());
    }
}

fn say_pace(trace: bool, turns: u64, wanted: &mut Wanted<'_>) {
    let pace = if trace { " trace " } else { " plain " };
    wanted.say(pace.as_bytes());
    wanted.say_number(turns);
}
