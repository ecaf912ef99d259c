//! What decides in a run.
ghost use Rattle.std.specs.Prelude.{◌≡◌, ◌≤◌};

use crate::chance::Chance;
use crate::rates::Rates;

/// A time that is so much later. Times are milliseconds.
pub fn later(now: u64, by: u32) -> u64
    ensures { now ≤ result }
{
    now.saturating_add(u64::from(by))
}

/// What decides in a run: how often things happen, the numbers by which they do, and when the loop's last wait with a bound is
/// over, so that what comes may be aimed at that.
#[derive(Drop)]
pub struct Odds {
    pub chance: Chance,
    pub rates: Rates,
    pub deadline: Option<u64>,
}

impl Odds {
    /// No wait is known.
    pub fn new(chance: Chance, rates: Rates) -> Odds {
        Odds {
            chance,
            rates,
            deadline: None,
        }
    }

    /// When something arrives that sets out now.
    pub fn arrival(&mut self, now: u64) -> u64
        ensures { now ≤ result }
    {
        if self.chance.happens(self.rates.stall) {
            return later(now, 5_000 + 20_000 * self.chance.below(3));
        }
        if self.chance.happens(self.rates.aim) {
            if let Some(deadline) = self.deadline {
                if deadline > now {
                    return self.aimed(now, deadline);
                }
            }
        }
        if self.chance.happens(self.rates.latency) {
            let most = self.rates.most_latency.min(1_000_000);
            return later(now, self.chance.below(most + 1));
        }
        now
    }

    /// A time at a deadline, or a little before or after it, and not before now.
    fn aimed(&mut self, now: u64, deadline: u64) -> u64
        ensures { now ≤ result }
    {
        let before = u64::from(self.chance.below(3));
        let after = self.chance.below(4) / 3;
        later(deadline.saturating_sub(before), after).max(now)
    }

    /// All of so many, or fewer, but at least one where there is one.
    pub fn part(&mut self, count: usize, percent: u32) -> usize
        ensures most { result ≤ count }
        ensures least { 1 ≤ count → 1 ≤ result }
    {
        if 1 < count && count <= 1_048_576 && self.chance.happens(percent) {
            return self.chance.below(count as u32 - 1) as usize + 1;
        }
        count
    }
}
