//! Numbers in decimal digits.
ghost use Rattle.std.specs.Prelude.{◌≡◌, ◌+◌, ◌-◌, ◌*◌, ◌≤◌, ◌&&◌, length, min, nat_lt};
ghost use Rattle.std.specs.List.{list_all};
ghost use Rattle.model_value.specs.Number.{number_of, digits_value, is_digit};

/// The greatest number of a script or a journal.
const MOST: u64 = 0x7FFF_FFFF_FFFF_FFFF;

/// One more than the greatest number that a minus sign may stand before.
const OVER: u64 = MOST + 2;

/// The number that digits alone stand for, leading zeros included; nothing for no digits, for
/// another byte, and for a number over 9,223,372,036,854,775,807.
/// Source: the language reference, "Integer literals".
pub fn number(digits: &[u8]) -> Option<u64>
    ensures { result ≡ number_of digits.now }
{
    if !are_digits(digits) {
        return None;
    }
    let value = value_of(digits);
    if value <= MOST { Some(value) } else { None }
}

/// Digits, and at least one.
pub fn are_digits(bytes: &[u8]) -> bool
    ensures { result ≡ (nat_lt 0 (length bytes.now) && list_all is_digit bytes.now) }
{
    !bytes.is_empty() && each_is_digit(bytes)
}

fn each_is_digit(bytes: &[u8]) -> bool
    ensures { result ≡ list_all is_digit bytes.now }
{
    bytes.iter().all(|byte| *byte >= b'0' && *byte <= b'9')
}

/// What digits stand for, or 9,223,372,036,854,775,809 where that is more: the first number that
/// is too wide even after a minus sign.
pub fn value_of(digits: &[u8]) -> u64
    ensures { result ≡ min (digits_value digits.now) OVER }
{
    let mut value = 0u64;
    for digit in digits {
        value = with_digit(value, *digit);
    }
    value
}

/// A value with one more digit after it.
fn with_digit(value: u64, digit: u8) -> u64
    requires { value ≤ OVER }
    ensures { result ≡ min (10 * value + (digit - 48)) OVER }
{
    if value > OVER / 10 {
        OVER
    } else {
        (10 * value + u64::from(digit.saturating_sub(b'0'))).min(OVER)
    }
}
