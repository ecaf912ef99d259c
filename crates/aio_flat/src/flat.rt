//! From a program to its code.
ghost use Rattle.std.specs.Prelude.{IfOk};
ghost use Rattle.aio_flat.specs.Code.{IsBodyOf, AreBodiesOf, IsCodeOf};

use crate::builder::BodyBuilder;
use crate::code::{Code, FlatBody};
use crate::laying::lay_all;
use crate::name::Name;
use crate::numbers::Numbers;
use crate::places::CoroutinePlaces;
use crate::variables::variables_of;
use aio_base::Memory;
use aio_program::{Coroutine, Program};
use std::alloc::Global;

/// The flat code of a program. Expressions are copied once, variables get their numbers, and texts
/// are shared with the program.
///
/// A program with more than 4,294,967,295 coroutines has none: the answer is `Memory`.
pub fn flatten(alloc: Global, program: &Program) -> Result<Code, Memory>
    ensures { IfOk result (IsCodeOf program.now) }
{
    let places = CoroutinePlaces::new(alloc, program)?;
    let bodies = bodies_of(alloc, &places, program.coroutines())?;
    Ok(Code { bodies })
}

fn bodies_of(
    alloc: Global,
    places: &CoroutinePlaces,
    coroutines: &[Coroutine],
) -> Result<Vec<FlatBody>, Memory>
    ensures { IfOk result (λ bodies. AreBodiesOf places.now coroutines.now bodies.items) }
{
    let mut bodies = Vec::new(alloc);
    for coroutine in coroutines {
        bodies.push(body_of(alloc, places, coroutine)?)?;
    }
    Ok(bodies)
}

fn body_of(
    alloc: Global,
    places: &CoroutinePlaces,
    coroutine: &Coroutine,
) -> Result<FlatBody, Memory>
    ensures { IfOk result (IsBodyOf places.now coroutine.now) }
{
    let names = variables_of(alloc, coroutine)?;
    let numbers = Numbers::new(alloc, names.as_slice())?;
    let mut builder = BodyBuilder::new(alloc);
    lay_all(
        alloc,
        places,
        &numbers,
        coroutine.body().items(),
        &mut builder,
    )?;
    let BodyBuilder { ops, ranges } = builder;
    Ok(FlatBody {
        name: Name::of(coroutine.name().clone()?),
        variables: numbers.count(),
        ops,
        ranges,
    })
}
