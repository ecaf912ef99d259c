//! The marks between which writing is paused and resumed.
ghost use Rattle.std.specs.Prelude.{◌≡◌, ◌<◌, ◌^◌, IfSome};
ghost use Rattle.model_stream.specs.Sending.{checked_marks, marks_of, natural};

/// The greatest high mark.
const MOST_HIGH: u64 = 2_147_483_647;

/// The high and the low mark that are asked for, where they may be: `high` defaults to four times `low`, and `low` to a
/// quarter of `high`.
/// Source: `transports.py`, `_FlowControlMixin._set_write_buffer_limits`.
pub fn marks_of(high: Option<i64>, low: Option<i64>) -> Option<(usize, usize)>
    ensures marks { result ≡ marks_of high low }
    ensures few { IfSome result (λ marks. (marks.0 < 2 ^ 32) × (marks.1 < 2 ^ 32)) }
{
    match (high, low) {
        (None, None) => checked(65_536, 16_384),
        (None, Some(low)) => {
            let low = natural(low)?;
            checked(low.saturating_mul(4), low)
        }
        (Some(high), None) => {
            let high = natural(high)?;
            checked(high, high / 4)
        }
        (Some(high), Some(low)) => checked(natural(high)?, natural(low)?),
    }
}

fn natural(number: i64) -> Option<u64>
    ensures { result ≡ natural number }
{
    if number < 0 {
        None
    } else {
        Some(number as u64)
    }
}

fn checked(high: u64, low: u64) -> Option<(usize, usize)>
    ensures marks { result ≡ checked_marks high low }
    ensures few { IfSome result (λ marks. (marks.0 < 2 ^ 32) × (marks.1 < 2 ^ 32)) }
{
    if low <= high && high <= MOST_HIGH {
        Some((high as usize, low as usize))
    } else {
        None
    }
}
