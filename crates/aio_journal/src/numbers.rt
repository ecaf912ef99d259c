//! Numbers in digits, and ids.
ghost use Rattle.std.specs.Prelude.{◌≡◌};
ghost use Rattle.model_wire.specs.JournalText.{number_token, minus_token, id_token};

use crate::tokens::EntryToken;
use aio_text::{are_digits, value_of};
use model_wire::IdLetter;

/// The greatest number of 64 bits with a sign.
const MOST: u64 = 0x7FFF_FFFF_FFFF_FFFF;

/// What a word of digits is.
pub fn number_token(digits: &[u8]) -> EntryToken
    ensures { result ≡ number_token digits.now }
{
    if !are_digits(digits) {
        return EntryToken::Other;
    }
    let value = value_of(digits);
    if value <= MOST {
        EntryToken::Number(value)
    } else {
        EntryToken::TooWide
    }
}

/// What digits are after a minus sign.
pub fn minus_token(digits: &[u8]) -> EntryToken
    ensures { result ≡ minus_token digits.now }
{
    if !are_digits(digits) {
        return EntryToken::Other;
    }
    let value = value_of(digits);
    if value <= MOST + 1 {
        EntryToken::Minus(value)
    } else {
        EntryToken::TooWide
    }
}

/// What digits are after an id's letter.
pub fn id_token(letter: IdLetter, digits: &[u8]) -> EntryToken
    ensures { result ≡ id_token letter digits.now }
{
    if !are_digits(digits) {
        return EntryToken::Other;
    }
    let value = value_of(digits);
    if value <= 0xFFFF_FFFF {
        EntryToken::Id {
            letter,
            number: value as u32,
        }
    } else {
        EntryToken::Other
    }
}
