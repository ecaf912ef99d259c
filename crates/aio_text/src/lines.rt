//! The lines of a text.
ghost use Rattle.std.specs.Prelude.{◌≡◌, ◌-◌, ◌<◌, [], ◌∷◌, ◌↔◌, drop, length, IsNone, IfSome};
ghost use Rattle.model_value.specs.Lines.{lines_of};

/// The first line of a text without its newline, and what follows it; nothing where the text is
/// empty. The last line may lack its newline. It reads the line alone.
pub fn next_line(text: &[u8]) -> Option<(&[u8], &[u8])>
    ensures none { IsNone result ↔ (text.now ≡ []) }
    ensures line { IfSome result (λ found. lines_of text.now ≡ found.0.now ∷ lines_of found.1.now) }
    ensures rest { IfSome result (λ found. found.1.now
        ≡ drop (length text.now - length found.1.now) text.now) }
    ensures shorter { IfSome result (λ found. length found.1.now < length text.now) }
{
    if text.is_empty() {
        return None;
    }
    for (at, byte) in text.iter().enumerate() {
        if *byte == b'\n' {
            return Some((&text[..at], &text[at + 1..]));
        }
    }
    Some((text, &text[text.len()..]))
}
