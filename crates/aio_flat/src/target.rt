//! The operation of a `yield from`.
ghost use Rattle.std.specs.Prelude.{◌≡◌, IfOk, option_copied};
ghost use Rattle.algorithm_flat.specs.Laid.{target_op};
ghost use Rattle.algorithm_locals.specs.Numbered.{numbered_option, numbered_target};
ghost use Rattle.aio_program.specs.Target.{plain_target, plain_name};

use crate::body::Op;
use crate::exprs::{flat_expr, flat_exprs};
use crate::numbers::Numbers;
use crate::places::CoroutinePlaces;
use aio_base::Memory;
use aio_expr::Local;
use aio_program::Target;
use std::alloc::Global;
use std::rc::RcStr;

/// A variable that may be left out.
pub fn local_in(numbers: &Numbers, name: Option<&RcStr>) -> Option<Local>
    ensures { result ≡ numbered_option numbers.now (plain_name (option_copied name.entry)) }
{
    match name {
        Some(name) => Some(numbers.local_of(name.as_str())),
        None => None,
    }
}

/// The operation of a `yield from` whose answer goes into a variable, if there is one.
#[tactic(auto, using(crate::proofs::Rows::numbered_list))]
pub fn target_op(
    alloc: Global,
    places: &CoroutinePlaces,
    numbers: &Numbers,
    into: Option<Local>,
    target: &Target,
) -> Result<Op, Memory>
    ensures { IfOk result (λ made.
        made ≡ target_op places.now into (numbered_target numbers.now (plain_target target.now))) }
{
    match target {
        Target::Await(name) => Ok(Op::Await {
            into,
            name: numbers.local_of(name.as_str()),
        }),
        Target::Call(coroutine, arguments) => Ok(Op::Call {
            into,
            coroutine: places.place_of(coroutine.as_str()),
            arguments: flat_exprs(alloc, numbers, arguments.items())?,
        }),
        Target::Ask(request, arguments) => Ok(Op::Ask {
            into,
            request: *request,
            arguments: flat_exprs(alloc, numbers, arguments.items())?,
        }),
        Target::SpawnTask(coroutine, arguments) => Ok(Op::Spawn {
            into,
            coroutine: places.place_of(coroutine.as_str()),
            arguments: flat_exprs(alloc, numbers, arguments.items())?,
        }),
        Target::CreateTask(group, coroutine, arguments) => Ok(Op::Create {
            into,
            group: flat_expr(alloc, numbers, group)?,
            coroutine: places.place_of(coroutine.as_str()),
            arguments: flat_exprs(alloc, numbers, arguments.items())?,
        }),
        Target::ListenAt(port, handler) => Ok(Op::Listen {
            into,
            port: flat_expr(alloc, numbers, port)?,
            coroutine: places.place_of(handler.as_str()),
        }),
    }
}
