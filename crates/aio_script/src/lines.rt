//! How many lines a text has.
ghost use Rattle.std.specs.Prelude.{◌≡◌, ◌≤◌, length};
ghost use Rattle.model_value.specs.Lines.{lines_of};

use aio_text::next_line;

/// The number of lines of a text. The last may lack its newline.
pub fn line_count(text: &[u8]) -> u64
    ensures count { result ≡ length (lines_of text.now) }
    ensures few { result ≤ length text.now }
{
    let mut rest = text;
    let mut count: u64 = 0;
    while let Some((_, behind)) = next_line(rest) {
        count += 1;
        rest = behind;
    }
    count
}
