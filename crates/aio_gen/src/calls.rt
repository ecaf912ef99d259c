//! Calls of coroutines, which run in frames of their own.
ghost use Rattle.std.specs.Prelude.{◌≡◌, ◌+◌, ◌<◌, ◌^◌, IfOk, option_copied, slice_get};
ghost use Rattle.model_says.specs.Variables.{bound};
ghost use Rattle.algorithm_locals.specs.Numbered.{locals};
ghost use Rattle.algorithm_flat.specs.declared.op.Op.TheVariants as flat;
ghost use Rattle.algorithm_flat.specs.Moves.{call, new_frame, after_statement};
ghost use Rattle.aio_flat.specs.Code.{codes_of};
ghost use Rattle.aio_gen.specs.Plain.{plain_frame, plain_frames, plain_move, value_at};

use crate::evaluate::values_of;
use crate::frames::{Frame, Frames};
use crate::types::{Move, Way};
use aio_base::{Kind, Memory, Value, exception};
use aio_expr::{Env, FlatExprList, Local};
use aio_flat::{Code, FlatBody};
use std::alloc::Global;
use std::mem;

/// How many frames may wait for the one that runs.
const MOST_CALLERS: usize = 63;

impl Frames {
    /// A call by `yield from`: opens a frame. RecursionError past 64 frames, after the arguments.
    #[inline(never)]
    pub fn call(
        &mut self,
        alloc: Global,
        code: &Code,
        into: &Option<Local>,
        coroutine: u32,
        arguments: &FlatExprList,
    ) -> Result<Move, Memory>
        requires { self.old.frame.place + 1 < 2 ^ 64 }
        ensures { IfOk result (λ moving. plain_move moving self.new
            ≡ after_statement (codes_of code.now) (flat.Call into.now coroutine arguments.now)
            (plain_frames self.old)) }
    {
        match values_of(alloc, arguments.items(), &self.frame.env)? {
            Ok(values) => self.call_with(alloc, code, into, coroutine, values.items()),
            Err(fault) => Ok(Move::Goes(Way::Raising(fault))),
        }
    }

    /// A call with these arguments. Where no frame more may be opened, it raises RecursionError.
    fn call_with(
        &mut self,
        alloc: Global,
        code: &Code,
        into: &Option<Local>,
        coroutine: u32,
        arguments: &[Value],
    ) -> Result<Move, Memory>
        requires { self.old.frame.place + 1 < 2 ^ 64 }
        ensures { IfOk result (λ moving. plain_move moving self.new
            ≡ call (codes_of code.now) (plain_frames self.old).room into.now coroutine arguments.now
            (plain_frames self.old)) }
    {
        if self.callers.len() >= MOST_CALLERS {
            let fault = exception(alloc, Kind::RecursionError, "too many frames")?;
            self.frame.place += 1;
            return Ok(Move::Goes(Way::Raising(fault)));
        }
        let frame = new_frame(alloc, code, *into, coroutine, arguments)?;
        self.frame.place += 1;
        let caller = mem::replace(&mut self.frame, frame);
        self.callers.push(caller)?;
        Ok(Move::Goes(Way::Passing))
    }
}

/// The frame of a call of a coroutine, at its first operation.
pub fn new_frame(
    alloc: Global,
    code: &Code,
    into: Option<Local>,
    coroutine: u32,
    arguments: &[Value],
) -> Result<Frame, Memory>
    ensures { IfOk result
        (λ frame. plain_frame frame ≡ new_frame (codes_of code.now) into coroutine arguments.now) }
{
    let env = match body_at(code, coroutine) {
        Some(body) => bound(alloc, body.variables, arguments)?,
        None => Env::of(Vec::new(alloc)),
    };
    Ok(Frame {
        coroutine,
        place: 0,
        handlers: Vec::new(alloc),
        env,
        into,
    })
}

/// The flat code of a coroutine by its place; None where there is none.
pub fn body_at(code: &Code, coroutine: u32) -> Option<&FlatBody>
    ensures { option_copied result ≡ slice_get code.now.bodies.items coroutine }
{
    code.bodies.get(coroutine as usize)
}

/// So many variables with the values in order. Those that are left hold None.
fn bound(alloc: Global, count: usize, values: &[Value]) -> Result<Env, Memory>
    ensures { IfOk result (λ env. env ≡ bound (locals 0 count) values.now) }
{
    let mut held = Vec::new(alloc);
    for number in 0..count {
        held.push(value_at(values, number)?)?;
    }
    Ok(Env::of(held))
}

fn value_at(values: &[Value], at: usize) -> Result<Value, Memory>
    ensures { IfOk result (λ value. value ≡ value_at values.now at) }
{
    match values.get(at) {
        Some(value) => Ok(value.clone()?),
        None => Ok(Value::nothing()),
    }
}
