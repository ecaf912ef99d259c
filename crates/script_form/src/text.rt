//! The lines of a script's text.
ghost use Rattle.std.specs.Prelude.{◌≡◌, ◌<◌, ◌↔◌, [], ◌∷◌, length, IsNone, IfSome};
ghost use Rattle.model_text.specs.TextLines.{text_lines};
ghost use Rattle.script_form.specs.Lines.{without_return};

use aio_text::next_line;

/// The first line of a text without its newline and a carriage return right before that, and what
/// follows it; nothing where the text is empty. The last line may lack its newline.
pub fn next_text_line(text: &[u8]) -> Option<(&[u8], &[u8])>
    ensures none { IsNone result ↔ (text.now ≡ []) }
    ensures line { IfSome result
        (λ found. text_lines text.now ≡ found.0.now ∷ text_lines found.1.now) }
    ensures shorter { IfSome result (λ found. length found.1.now < length text.now) }
{
    let (line, _) = next_line(text)?;
    if line.len() < text.len() {
        Some((without_return(line), &text[line.len() + 1..]))
    } else {
        Some((line, &text[text.len()..]))
    }
}

/// A line without the carriage return at its end.
fn without_return(line: &[u8]) -> &[u8]
    ensures { result.now ≡ without_return line.now }
{
    let Some((last, inner)) = line.split_last() else {
        return line;
    };
    if *last == b'\r' { inner } else { line }
}
