//! A bell in memory.
ghost use Rattle.std.specs.Prelude.{◌≡◌};

use crate::bell::Bell;
use std::marker::Model;

/// A bell that counts its rings, up to 2^64 - 1. Contracts see their number.
#[derive(Drop)]
pub struct MemBell {
    count: u64,
}

impl Model for MemBell {
    ghost use Rattle.std.specs.Prelude.{ℕ};

    ghost Value = { ℕ };

    ghost view = { λ bell. bell.count };
}

impl MemBell {
    /// A bell that was not rung yet.
    pub fn new() -> MemBell
        ensures { result ≡ 0 }
    {
        MemBell { count: 0 }
    }

    /// How often it was rung.
    pub fn rings(&self) -> u64
        ensures { result ≡ self.now }
    {
        self.count
    }
}

impl Bell for MemBell {
    ghost use Rattle.std.specs.Prelude.{Some};

    ghost rings = { λ bell. Some bell };

    fn ring(&mut self) {
        self.count = self.count.saturating_add(1);
    }
}
