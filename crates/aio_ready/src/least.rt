//! What the numbers of handles do not fall below.
ghost use Rattle.std.specs.Prelude.{◌≡◌, true};
ghost use Rattle.aio_ready.specs.Reach.{reaches, IsBelow};

use crate::handle::HandleName;

/// A number that those of `Ready::soon` do not fall below, and one for those of timers.
#[derive(Clone, Copy)]
pub struct Least {
    pub given: u64,
    pub timer: u64,
}

impl Least {
    /// What serves while there is no handle.
    pub fn of_none() -> Least {
        Least {
            given: u64::MAX,
            timer: u64::MAX,
        }
    }

    /// Whether a handle with this name may be among them.
    pub fn reaches(self, name: HandleName) -> bool
        ensures { result ≡ reaches self name }
    {
        match name {
            HandleName::Nameless => true,
            HandleName::Given(number) => self.given <= number,
            HandleName::Timer(number) => self.timer <= number,
        }
    }

    /// With one more handle among them.
    pub fn with(self, name: HandleName) -> Least
        ensures below { IsBelow result self }
        ensures name { reaches result name ≡ true }
    {
        let Least { given, timer } = self;
        match name {
            HandleName::Nameless => self,
            HandleName::Given(number) => Least {
                given: given.min(number),
                timer,
            },
            HandleName::Timer(number) => Least {
                given,
                timer: timer.min(number),
            },
        }
    }

    /// With all others among them.
    pub fn and(self, other: Least) -> Least
        ensures own { IsBelow result self }
        ensures others { IsBelow result other }
    {
        Least {
            given: self.given.min(other.given),
            timer: self.timer.min(other.timer),
        }
    }
}
