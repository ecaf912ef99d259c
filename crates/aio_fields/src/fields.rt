//! The first fields of a text.
ghost use Rattle.std.specs.Prelude.{◌≡◌, ◌==◌, None, Some, MatchOption, position};
ghost use Rattle.model_fields.specs.Fields.{numbered, parted};

use aio_text::number;

fn space_in(text: &[u8]) -> Option<usize>
    ensures { result ≡ position (λ byte. byte == 32) text.now }
{
    text.iter().position(|byte| *byte == b' ')
}

/// The bytes before the first space, and those after it; nothing where there is no space.
pub fn parted(text: &[u8]) -> Option<(&[u8], &[u8])>
    ensures { MatchOption result (parted text.now ≡ None)
        (λ fields. parted text.now ≡ Some (fields.0.now, fields.1.now)) }
{
    let at = space_in(text)?;
    Some((&text[..at], &text[at + 1..]))
}

/// A number in decimal before the first space, and the bytes after that; nothing for a text of
/// another form. Zeros may stand before the number, which is at most 9,223,372,036,854,775,807.
pub fn numbered(text: &[u8]) -> Option<(u64, &[u8])>
    ensures { MatchOption result (numbered text.now ≡ None)
        (λ found. numbered text.now ≡ Some (found.0, found.1.now)) }
{
    let (front, rest) = parted(text)?;
    let number = number(front)?;
    Some((number, rest))
}
