//! A wire that answers nothing.
ghost use Rattle.std.specs.Prelude.{◌≡◌};

use aio_base::Memory;
use aio_wire::{Call, Reply, Wire};
use std::alloc::Global;

/// A wire for programs that ask none: each call of it fails.
#[derive(Drop)]
pub struct DeadWire {
    faults: u64,
}

impl DeadWire {
    /// A wire of which each call fails. So far none was made.
    pub fn new() -> DeadWire
        ensures { result.faults ≡ 0 }
    {
        DeadWire { faults: 0 }
    }
}

impl Wire for DeadWire {
    ghost use Rattle.aio_memwire.specs.Dead.{dead};

    ghost outside = { record {
      seen = λ wire. dead wire.faults;
      fails = λ _. Unit {0};
      keeps = λ _ _. Unit {0};
      quiet = λ _ _. Unit {0};
      end_agrees = λ _. tt;
      keeps_same = λ _. tt;
      keeps_on = λ _ _ _ _ _. tt;
      quiet_same = λ _. tt;
      quiet_on = λ _ _ _ _ _. tt;
    } };

    fn ask(&mut self, _alloc: Global, _call: &Call) -> Result<Reply, Memory> {
        self.faults = self.faults.saturating_add(1);
        Ok(Reply::Failed)
    }
}
