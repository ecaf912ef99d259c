ghost use Rattle.std.specs.Prelude.{◌≡◌, true, false, pos, MatchOption};
ghost use Rattle.model_text.specs.Tokens.{is_number, number_of};

/// The number that a text of decimal digits writes; nothing where it has another
/// byte or the number is too great.
pub fn number(text: &[u8]) -> Option<i64>
    ensures { MatchOption result (is_number text.now ≡ false)
        (λ number. (is_number text.now ≡ true) × (number ≡ pos (number_of text.now))) }
{
    let mut number: u64 = 0;
    for digit in text {
        if !digit.is_ascii_digit() {
            return None;
        }
        number = number
            .checked_mul(10)?
            .checked_add(u64::from(*digit - b'0'))?;
    }
    i64::try_from(number).ok()
}
