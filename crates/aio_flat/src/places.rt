//! The coroutines of a program by their names.
ghost use Rattle.std.specs.Prelude.{◌≡◌, IfOk, length};
ghost use Rattle.model_says.specs.Requests.{place_of};
ghost use Rattle.algorithm_locals.specs.Numbered.{numbered_program};
ghost use Rattle.aio_flat.specs.Places.{HasPlaces};

use aio_base::Memory;
use aio_program::{Coroutine, Program};
use std::alloc::{AllocError, Global};
use std::collections::BTreeMap;
use std::marker::Model;

/// The places of a program's coroutines. Contracts see the program, whose variables go by their
/// numbers.
#[derive(Drop)]
pub struct CoroutinePlaces<'p> {
    program: &'p Program,
    count: u32,
    /// The place of the first coroutine of each name.
    places: BTreeMap<&'p str, u32>,
}

impl<'p> Model for CoroutinePlaces<'p> {
    ghost use Rattle.std.specs.Prelude.{◌≡◌, length};
    ghost use Rattle.model_tree.specs.Syntax as plain;
    ghost use Rattle.algorithm_locals.specs.Numbered.{numbered_program};
    ghost use Rattle.aio_program.specs.StatementCode.{coded_program};

    ghost Value = { plain.Program };

    ghost coded = { coded_program };

    ghost use Rattle.aio_flat.specs.Places.{HasPlaces};

    ghost view = { λ a. numbered_program a.program.now };

    ghost invariant = { λ a. HasPlaces a.places a.count 0 a.program.now.coroutines
        × (a.count ≡ length a.program.now.coroutines) };
}

impl<'p> CoroutinePlaces<'p> {
    /// It answers `Memory` for a program with more than 4,294,967,295 coroutines, which no place
    /// could number.
    pub fn new(alloc: Global, program: &'p Program) -> Result<CoroutinePlaces<'p>, Memory>
        ensures { IfOk result (λ places. places ≡ numbered_program program.now) }
    {
        let Ok(count) = u32::try_from(program.coroutines().len()) else {
            return Err(Memory);
        };
        Ok(CoroutinePlaces {
            program,
            count,
            places: places_in(alloc, program.coroutines(), count)?,
        })
    }

    /// The place of the first coroutine of this name, or their number where there is none.
    pub fn place_of(&self, name: &str) -> u32
        ensures { result ≡ place_of self.now name.now }
    {
        self.places.get(name).copied().unwrap_or(self.count)
    }
}

fn places_in<'p>(
    alloc: Global,
    coroutines: &'p [Coroutine],
    count: u32,
) -> Result<BTreeMap<&'p str, u32>, AllocError>
    requires { count ≡ length coroutines.now }
    ensures { IfOk result (λ places. HasPlaces places count 0 coroutines.now) }
{
    let mut places = BTreeMap::new(alloc);
    let mut at = count;
    while at > 0 {
        at -= 1;
        let coroutine = &coroutines[at as usize];
        places.insert(coroutine.name().as_str(), at)?;
    }
    Ok(places)
}
