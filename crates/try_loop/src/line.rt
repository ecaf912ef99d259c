//! The lines of a file of tapes.

/// What a coroutine is resumed with: a number or an exception, and whether that begins a step of its task.
#[derive(Clone, Copy)]
pub struct GivenInput {
    pub throws: bool,
    pub fresh: bool,
}

/// What a line says.
#[derive(Clone, Copy)]
pub enum TapeLine<'a> {
    /// `script NAME`: a script begins.
    Script(&'a str),
    /// `|TEXT`: a line of the script.
    Text(&'a [u8]),
    /// `tape`: the script's `main` is made anew.
    Tape,
    /// `send SAID`, `throw SAID`, `on send SAID`, `on throw SAID`: an input, and what must be said.
    Input(GivenInput, &'a str),
    /// Any other line: a comment, or an empty one.
    Comment,
}

/// What a line of a file of tapes says.
pub fn line_of(bytes: &[u8]) -> TapeLine<'_> {
    match bytes {
        [b'|', text @ ..] => TapeLine::Text(text),
        _ => match str::from_utf8(bytes) {
            Ok("tape") => TapeLine::Tape,
            Ok(words) => head_of(words),
            Err(_) => TapeLine::Comment,
        },
    }
}

fn head_of(words: &str) -> TapeLine<'_> {
    match words.split_once(' ') {
        Some(("script", name)) => TapeLine::Script(name),
        Some(("on", input)) => input_of(input, false),
        _ => input_of(words, true),
    }
}

fn input_of(words: &str, fresh: bool) -> TapeLine<'_> {
    match words.split_once(' ') {
        Some(("send", said)) => TapeLine::Input(
            GivenInput {
                throws: false,
                fresh,
            },
            said,
        ),
        Some(("throw", said)) => TapeLine::Input(
            GivenInput {
                throws: true,
                fresh,
            },
            said,
        ),
        _ => TapeLine::Comment,
    }
}
