//! An exit in memory.
ghost use Rattle.std.specs.Prelude.{◌≡◌, ◌==◌, ◌≤◌};
ghost use Rattle.std.specs.List.{list_any};
ghost use Rattle.aio_pump.specs.Exits.{exited, waited};

use crate::exit::{ExitSource, Exited};
use std::marker::Model;

/// An exit with this code, of which the waits with the listed numbers fail, counted from 1. It tells its code, and counts
/// 2^64 - 1 waits and failures at most.
#[derive(Drop)]
pub struct MemExit {
    code: i32,
    failing: Vec<u64>,
    waits: u64,
    faults: u64,
}

impl Model for MemExit {
    ghost use Rattle.aio_pump.specs.Exits.{ExitPlan};

    ghost Value = { ExitPlan };

    ghost view = { λ exit. record {
      code = exit.code;
      failing = exit.failing.items;
      waits = exit.waits;
      faults = exit.faults;
    } };
}

impl MemExit {
    /// An exit with this code; the calls with the listed numbers, from 1, fail.
    pub fn new(code: i32, failing: Vec<u64>) -> MemExit
        ensures { result ≡ record {
          code = code;
          failing = failing.items;
          waits = 0;
          faults = 0;
        } }
    {
        MemExit {
            code,
            failing,
            waits: 0,
            faults: 0,
        }
    }
}

impl ExitSource for MemExit {
    ghost use Rattle.std.specs.Prelude.{Some};

    ghost seen = { λ exit. record { code = Some exit.code; faults = exit.faults } };

    fn wait(&mut self) -> Exited
        ensures answer { result ≡ exited self.old }
        ensures after { self.new ≡ waited self.old }
        ensures monotone { self.old.faults ≤ self.new.faults }
    {
        self.waits = self.waits.saturating_add(1);
        let fails = is_listed(self.failing.as_slice(), self.waits);
        if fails {
            self.faults = self.faults.saturating_add(1);
            return Exited::Failed;
        }
        Exited::Code(self.code)
    }
}

fn is_listed(failing: &[u64], wait: u64) -> bool
    ensures { result ≡ list_any (λ listed. listed == wait) failing.now }
{
    failing.iter().any(|listed| *listed == wait)
}
