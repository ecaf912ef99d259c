//! What the files of a row say: answers, and numbers, a line each.
use aio_journal::read_entry;
use aio_text::{next_line, number};
use aio_wire::Answer;
use std::alloc::Global;
use try_row::Row;

/// The text of a row's file; an empty one where there is none.
pub fn text_of<'a>(row: &'a Row, name: &str) -> &'a [u8] {
    match row.shelf.inner.file(name) {
        Some(text) => text,
        None => &[],
    }
}

/// The answers of a text, up to a line that is none, or for which memory is refused.
pub fn answers_in(alloc: Global, text: &[u8]) -> Vec<Answer> {
    let mut answers = Vec::new(alloc);
    let mut rest = text;
    for _ in 0..u64::MAX {
        let Some((line, more)) = next_line(rest) else {
            break;
        };
        rest = more;
        match read_entry(alloc, line, 1) {
            Ok(answer) => {
                let _pushed = answers.push(answer);
            }
            Err(_) => break,
        }
    }
    answers
}

/// The numbers of a text. Lines that are none are passed over, and so are those for which memory is refused.
pub fn numbers_in(alloc: Global, text: &[u8]) -> Vec<u64> {
    let mut numbers = Vec::new(alloc);
    let mut rest = text;
    for _ in 0..u64::MAX {
        let Some((line, more)) = next_line(rest) else {
            break;
        };
        rest = more;
        if let Some(found) = number(line) {
            let _pushed = numbers.push(found);
        }
    }
    numbers
}
