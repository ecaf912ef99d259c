//! Which calls fail.
ghost use Rattle.std.specs.Prelude.{◌≡◌, ◌==◌, ◌≤◌};
ghost use Rattle.std.specs.List.{list_any};
ghost use Rattle.aio_hub.specs.InMemory.{plan_of, fails_next, after_call};

use std::marker::Model;

/// The calls with the listed numbers fail, counted from 1. It counts 2^64 - 1 calls and failures at
/// most.
#[derive(Drop)]
pub(crate) struct CallPlan {
    failing: Vec<u64>,
    made: u64,
    faults: u64,
}

impl Model for CallPlan {
    ghost use Rattle.aio_hub.specs.InMemory.{Plan};

    ghost Value = { Plan };

    ghost view = { λ plan. record { failing = plan.failing.items; made = plan.made; faults = plan.faults } };
}

impl CallPlan {
    pub(crate) fn new(failing: Vec<u64>) -> CallPlan
        ensures { result ≡ plan_of failing.items }
    {
        CallPlan {
            failing,
            made: 0,
            faults: 0,
        }
    }

    /// Counts a call, and says whether it fails.
    pub(crate) fn fails(&mut self) -> bool
        ensures fails { result ≡ fails_next self.old }
        ensures after { self.new ≡ after_call self.old }
        ensures monotone { self.old.faults ≤ self.new.faults }
    {
        self.made = self.made.saturating_add(1);
        let fails = is_listed(self.failing.as_slice(), self.made);
        if fails {
            self.faults = self.faults.saturating_add(1);
        }
        fails
    }
}

fn is_listed(failing: &[u64], call: u64) -> bool
    ensures { result ≡ list_any (λ listed. listed == call) failing.now }
{
    failing.iter().any(|listed| *listed == call)
}
