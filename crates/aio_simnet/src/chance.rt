//! The numbers by which what is made up is decided.
ghost use Rattle.std.specs.Prelude.{◌≡◌, ◌<◌, ◌≤◌, ◌%◌, false};
ghost use Rattle.rand_core.specs.Pcg32Seed.{pcg32_seed};
ghost use Rattle.rand_pcg.specs.Pcg.{pcg32, pcg32_of_seed};

use rand_core::SeedableRng;
use rand_core::utils::NextWord;
use rand_pcg::Pcg32;
use std::marker::Model;

/// Numbers below bounds, each by the next word of a generator. Contracts see the generator.
#[derive(Drop)]
pub struct Chance {
    source: Pcg32,
}

impl Model for Chance {
    ghost use Rattle.rand_pcg.specs.Lcg.{Lcg};

    ghost Value = { Lcg };

    ghost view = { λ chance. chance.source };
}

impl Chance {
    /// The numbers of a seed.
    pub fn of_seed(seed: u64) -> Chance
        ensures { result ≡ pcg32_of_seed (pcg32_seed 16 seed) }
    {
        Chance {
            source: Pcg32::seed_from_u64(seed),
        }
    }

    /// A number below a bound.
    pub fn below(&mut self, bound: u32) -> u32
        requires { 1 ≤ bound }
        ensures number { result ≡ (pcg32 self.old).0 % bound }
        ensures next { self.new ≡ (pcg32 self.old).1 }
        ensures below { result < bound }
    {
        self.source.next_word() % bound
    }

    /// Whether something happens that does in so many of a hundred cases. Where it never does, no number is drawn.
    pub fn happens(&mut self, percent: u32) -> bool
        ensures never { percent ≡ 0 → (result ≡ false) × (self.new ≡ self.old) }
        ensures next { 1 ≤ percent → self.new ≡ (pcg32 self.old).1 }
    {
        percent != 0 && self.below(100) < percent
    }
}
