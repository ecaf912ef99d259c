//! Numbers drawn from a seed, as `minstd_rand` of C++'s `<random>` draws them.
ghost use Rattle.std.specs.Prelude.{◌≡◌, ◌+◌, ◌*◌, ◌%◌, ◌<◌};
ghost use Rattle.model_work.specs.Work.{draw};

const MULTIPLIER: u64 = 48271;

/// All numbers after the seed are below it.
const MODULUS: u64 = 2147483647;

/// The first number that is drawn from a seed.
pub fn first_draw(seed: u64) -> u64
    ensures first { result ≡ draw seed 1 }
    ensures below { result < MODULUS }
{
    (seed % MODULUS + 1) * MULTIPLIER % MODULUS
}

/// The number that is drawn after this one.
pub fn next_draw(number: u64) -> u64
    requires { number < MODULUS }
    ensures next { result ≡ number * MULTIPLIER % MODULUS }
    ensures below { result < MODULUS }
{
    number * MULTIPLIER % MODULUS
}
