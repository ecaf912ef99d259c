//! Deadlines, in milliseconds.
ghost use Rattle.std.specs.Prelude.{◌≡◌};
ghost use Rattle.std.specs.Option.{option_map};
ghost use Rattle.model_loop.specs.Handles.{deadline};
ghost use Rattle.model_loop.specs.Timeouts.{moment};

// The greatest number of a script.
const MOST: u64 = 0x7FFF_FFFF_FFFF_FFFF;

/// When a delay is over, which may be negative. It is no later than the greatest number of a
/// script.
pub fn deadline(now: u64, delay: i64) -> u64
    ensures { result ≡ deadline now delay }
{
    if delay < 0 {
        now.saturating_sub(delay.unsigned_abs())
    } else {
        now.saturating_add(delay as u64).min(MOST)
    }
}

/// When a delay is over, if there is one.
pub fn deadline_after(now: u64, delay: Option<i64>) -> Option<u64>
    ensures { result ≡ option_map (deadline now) delay }
{
    match delay {
        Some(delay) => Some(deadline(now, delay)),
        None => None,
    }
}

// A time that a script tells. One before a run's first was over as that began.
fn moment(when: i64) -> u64
    ensures { result ≡ moment when }
{
    if when < 0 { 0 } else { when as u64 }
}

/// A time that a script tells, if it does.
pub fn moment_at(when: Option<i64>) -> Option<u64>
    ensures { result ≡ option_map moment when }
{
    match when {
        Some(when) => Some(moment(when)),
        None => None,
    }
}
