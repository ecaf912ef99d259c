//! Jobs by their numbers.
ghost use Rattle.std.specs.Prelude.{◌≡◌, ◌+◌, ◌++◌, ◌∷◌, [], IfOk, OnOk};
ghost use Rattle.std.specs.Map.{lookup, remove_entry};
ghost use Rattle.model_exec.specs.Execed.{is_number};
ghost use Rattle.model_exec.specs.Serving.{goes_on};

use aio_base::Memory;
use std::alloc::Global;
use std::collections::BTreeMap;
use std::marker::Model;

/// How many jobs were accepted, and each that goes on, by its number, with the place of its
/// request's key. Contracts see them in order of number.
#[derive(Drop)]
pub struct Jobs {
    accepted: u64,
    going: BTreeMap<u64, u64>,
}

impl Model for Jobs {
    ghost use Rattle.std.specs.Prelude.{◌<◌};
    ghost use Rattle.std.specs.List.{AllByRecursion as Each};
    ghost use Rattle.std.specs.BTreeMap.{IsOrdered};
    ghost use Rattle.std.specs.Ordering.{nat_cmp};
    ghost use Rattle.aio_exec.specs.Code.{coded_accepted};
    ghost use Rattle.aio_exec.specs.Drawn.{Accepted};

    ghost Value = { Accepted };

    ghost coded = { coded_accepted };

    ghost view = { λ a. record { accepted = a.accepted; going = a.going.entries } };

    ghost invariant = { λ a. IsOrdered nat_cmp a.going
        × Each (λ entry. entry.0 < a.accepted) a.going.entries };
}

fn forget(_it: Option<u64>) {}

impl Jobs {
    /// None was accepted.
    pub fn new(alloc: Global) -> Jobs
        ensures { result ≡ record { accepted = 0; going = [] } }
    {
        Jobs {
            accepted: 0,
            going: BTreeMap::new(alloc),
        }
    }

    /// How many were accepted, which is the next number.
    pub fn accepted(&self) -> u64
        ensures { result ≡ self.now.accepted }
    {
        self.accepted
    }

    /// The next job is that of the request at this place.
    pub fn accept(&mut self, place: u64) -> Result<(), Memory>
        ensures { OnOk result (self.new ≡ record {
          accepted = self.old.accepted + 1;
          going = self.old.going ++ (self.old.accepted, place) ∷ [];
        }) }
    {
        let number = self.accepted;
        if number == u64::MAX {
            return Err(Memory);
        }
        forget(self.going.insert(number, place)?);
        self.accepted = number + 1;
        Ok(())
    }

    /// A job is over, if it goes on: the place of its request's key. It takes no memory.
    pub fn end(&mut self, number: u64) -> Option<u64>
        ensures place { result ≡ lookup (is_number number) self.old.going }
        ensures after { self.new ≡ record self.old {
          going = remove_entry (is_number number) self.old.going;
        } }
    {
        self.going.remove(&number)
    }

    /// Whether one goes on.
    pub fn go_on(&self) -> bool
        ensures { result ≡ goes_on self.now.going }
    {
        !self.going.is_empty()
    }
}
