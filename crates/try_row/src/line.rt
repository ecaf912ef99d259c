//! The lines of a file of rows.

/// What a line says.
#[derive(Clone, Copy)]
pub enum RowLine<'a> {
    /// `row NAME`: a row begins.
    Row(&'a str),
    /// `word WORD`: the program's next word.
    Word(&'a str),
    /// `file NAME`: a file begins; its text follows.
    File(&'a str),
    /// `written`: what must be written follows.
    Written,
    /// `status NUMBER`: how the program must end.
    Status(&'a str),
    /// `fails CALL`: a call of the outside that fails, as `shelf 2` or `sink 1`.
    Fails(&'a str),
    /// `|TEXT`: a line of the text that began last.
    Text(&'a [u8]),
    /// `:TEXT`: the end of the text that began last, without a newline.
    End(&'a [u8]),
    /// `times NUMBER TEXT`: so many times this text, without a newline.
    Times(&'a str),
    /// `lines NUMBER TEXT`: so many lines of this text.
    Lines(&'a str),
    /// Any other line: a comment, or an empty one.
    Comment,
}

/// What a line of a file of rows says.
pub fn line_of(bytes: &[u8]) -> RowLine<'_> {
    match bytes {
        [b'|', text @ ..] => RowLine::Text(text),
        [b':', text @ ..] => RowLine::End(text),
        _ => match str::from_utf8(bytes) {
            Ok(words) => head_of(words),
            Err(_) => RowLine::Comment,
        },
    }
}

fn head_of(words: &str) -> RowLine<'_> {
    match words.split_once(' ') {
        Some(("row", name)) => RowLine::Row(name),
        Some(("word", word)) => RowLine::Word(word),
        Some(("file", name)) => RowLine::File(name),
        Some(("status", number)) => RowLine::Status(number),
        Some(("fails", call)) => RowLine::Fails(call),
        Some(("times", words)) => RowLine::Times(words),
        Some(("lines", words)) => RowLine::Lines(words),
        _ if words == "written" => RowLine::Written,
        _ => RowLine::Comment,
    }
}
