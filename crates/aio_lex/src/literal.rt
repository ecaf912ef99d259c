//! Literals of texts and of bytes.

ghost use Rattle.std.specs.Prelude.{◌≡◌, ◌<◌, ◌+◌, ◌^◌, true, false, length, take, Some, None, MatchOption};
ghost use Rattle.std.specs.Char.{is_ascii_hexdigit, digit_value};
ghost use Rattle.model_text.specs.Literals.{limit, inside_of, escape_value, hexadecimal_value, value_below, part_value, parts_of, literal_bytes};
ghost use Rattle.aio_lex.specs.Faults.{Gives};
ghost use Rattle.aio_lex.specs.Fronts.{first_part};

use crate::fault::LexFault;
use crate::words::is_allowed;
use model_text::Literal;
use std::alloc::Global;

/// Where the closing quote stands, by the bytes behind the opening one.
pub fn closing(bytes: &[u8]) -> Option<usize>
    ensures { MatchOption result (inside_of false bytes.now ≡ None)
        (λ place. (place < length bytes.now)
        × (inside_of false bytes.now ≡ Some (take place bytes.now))) }
{
    let mut unpaired = false;
    for (place, byte) in bytes.iter().enumerate() {
        if *byte == b'"' && !unpaired {
            return Some(place);
        }
        unpaired = *byte == b'\\' && !unpaired;
    }
    None
}

fn escape_value(letter: u8) -> Option<u8>
    ensures { result ≡ escape_value letter }
{
    match letter {
        b'n' => Some(b'\n'),
        b'r' => Some(b'\r'),
        b't' => Some(b'\t'),
        b'\\' | b'"' => Some(letter),
        _ => None,
    }
}

/// The value of a hexadecimal digit of either case.
fn digit_value(digit: u8) -> Option<u8>
    ensures { MatchOption result (is_ascii_hexdigit digit ≡ false)
        (λ value. (is_ascii_hexdigit digit ≡ true) × (value ≡ digit_value digit) × (value < 16)) }
{
    match digit {
        b'0'..=b'9' => Some(digit - b'0'),
        b'a'..=b'f' => Some(digit - b'a' + 10),
        b'A'..=b'F' => Some(digit - b'A' + 10),
        _ => None,
    }
}

/// The value of two hexadecimal digits, if a literal may say it.
fn hexadecimal_value(literal: Literal, high: u8, low: u8) -> Option<u8>
    ensures { result ≡ value_below (limit literal) (hexadecimal_value high low) }
{
    let value = 16 * digit_value(high)? + digit_value(low)?;
    match literal {
        Literal::OfText if value >= 0x80 => None,
        _ => Some(value),
    }
}

/// What the part at the front of an inside says, and how many bytes it has.
fn part(literal: Literal, inside: &[u8]) -> Option<(u8, usize)>
    requires { 0 < length inside.now }
    ensures { let part = first_part inside.now in
        MatchOption result (part_value literal part ≡ None)
        (λ found. (part_value literal part ≡ Some found.0) × (length part ≡ found.1)) }
{
    match inside {
        [b'\\', b'x', high, low, ..] => Some((hexadecimal_value(literal, *high, *low)?, 4)),
        [b'\\', letter, ..] => Some((escape_value(*letter)?, 2)),
        [byte, ..] if is_allowed(*byte) && *byte != b'"' && *byte != b'\\' => Some((*byte, 1)),
        _ => None,
    }
}

/// What the inside of a literal says, which begins in this column.
pub fn literal_bytes(
    alloc: Global,
    literal: Literal,
    inside: &[u8],
    column: usize,
) -> Result<Vec<u8>, LexFault>
    requires { column + length inside.now < 2 ^ 64 }
    ensures { Gives (λ bytes. bytes.items) result
        (literal_bytes literal column (parts_of inside.now)) }
{
    let mut said = Vec::new(alloc);
    let mut at = 0;
    while at < inside.len() {
        let Some((value, len)) = part(literal, &inside[at..]) else {
            return Err(LexFault::BadByte(column + at));
        };
        said.push(value)?;
        at += len;
    }
    Ok(said)
}
