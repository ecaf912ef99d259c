//! Lines of texts.
use aio_text::next_line;
use try_row::Wanted;

/// The lines before the one that begins with a mark as the `number`-th, counted from 1: all of them
/// where fewer do, and none for 0.
pub fn lines_before<'a>(text: &'a [u8], mark: &[u8], number: u64) -> &'a [u8] {
    let mut marked = 0u64;
    let mut rest = text;
    for _ in 0..u64::MAX {
        let Some((line, more)) = next_line(rest) else {
            return text;
        };
        if line.starts_with(mark) {
            marked = marked.saturating_add(1);
        }
        if marked >= number {
            break;
        }
        rest = more;
    }
    &text[..text.len().saturating_sub(rest.len())]
}

/// Tells the lines of a traced transcript that stand in it without the trace too.
pub fn say_untraced(text: &[u8], wanted: &mut Wanted<'_>) {
    let mut rest = text;
    for _ in 0..u64::MAX {
        let Some((line, more)) = next_line(rest) else {
            break;
        };
        rest = more;
        if !is_of_trace(line) {
            wanted.say(line);
            wanted.say(b"\n");
        }
    }
}

/// A call, an answer, or a handle that runs.
fn is_of_trace(line: &[u8]) -> bool {
    line.starts_with(b"> ") || line.starts_with(b"< ") || line.starts_with(b". ")
}

/// How many lines begin with a mark.
pub fn count_of(text: &[u8], mark: &[u8]) -> u64 {
    let mut count = 0u64;
    let mut rest = text;
    for _ in 0..u64::MAX {
        let Some((line, more)) = next_line(rest) else {
            break;
        };
        rest = more;
        if line.starts_with(mark) {
            count = count.saturating_add(1);
        }
    }
    count
}
