//! Moves until something is asked or said.
ghost use Rattle.std.specs.Prelude.{◌≡◌, ℕ, List, [], IfOk};
ghost use Rattle.model_value.specs.Value.{Value as PlainValue};
ghost use Rattle.model_tree.specs.Syntax.{Program};
ghost use Rattle.model_says.specs.Tape.{Tape};
ghost use Rattle.algorithm_flat.specs.Moves.{move_of};
ghost use Rattle.algorithm_flat.specs.Stands.{AllLaidOut};
ghost use Rattle.algorithm_flat.specs.Tapes.{MovesFor};
ghost use Rattle.aio_flat.specs.Code.{codes_of, plain_body};
ghost use Rattle.aio_gen.specs.Gens.{SaysAfter};
ghost use Rattle.aio_gen.specs.Plain.{plain_frames, plain_move};

use crate::calls::body_at;
use crate::frames::Frames;
use crate::generator::{GenOut, Waiting};
use crate::types::{Move, Way};
use aio_base::Memory;
use aio_flat::{Code, FlatBody, Name};
use std::alloc::Global;
use std::rc::RcStr;

/// A move in the code of the frame's coroutine.
fn step_in(alloc: Global, code: &Code, way: Way, frames: &mut Frames) -> Result<Move, Memory>
    ensures { IfOk result (λ moving. plain_move moving frames.new
        ≡ move_of (codes_of code.now) (codes_of code.now frames.old.frame.coroutine) way
        (plain_frames frames.old)) }
{
    match body_at(code, frames.frame.coroutine) {
        Some(body) => frames.step(alloc, code, body, way),
        None => frames.step(alloc, code, &nothing(alloc)?, way),
    }
}

/// The code of a coroutine that there is not.
fn nothing(alloc: Global) -> Result<FlatBody, Memory>
    ensures { IfOk result
        (λ body. plain_body body ≡ record { ops = []; ranges = []; variables = [] }) }
{
    Ok(FlatBody {
        name: Name::of(RcStr::from_str(alloc, "")?),
        variables: 0,
        ops: Vec::new(alloc),
        ranges: Vec::new(alloc),
    })
}

/// Runs until something is asked or said: what the coroutine says after each tape that the frames
/// stand for, and what waits for the answer.
pub fn run(
    alloc: Global,
    code: &Code,
    entry: Way,
    frames: Frames,
) -> Result<(GenOut, Option<Waiting>), Memory>
    ensures { IfOk result (λ made.
        (limit : ℕ) (program : Program) (coroutine : ℕ) (arguments : List PlainValue)
        (tape : Tape) →
        AllLaidOut program (codes_of code.now) →
        MovesFor limit program (codes_of code.now) coroutine arguments tape entry
        (plain_frames frames) →
        SaysAfter limit program (codes_of code.now) coroutine arguments tape made.0 made.1) }
{
    let mut frames = frames;
    let mut way = entry;
    loop {
        match step_in(alloc, code, way, &mut frames)? {
            Move::Goes(next) => way = next,
            Move::Asks(request, use_of) => {
                return Ok((GenOut::Asks(request), Some(Waiting { frames, use_of })));
            }
            Move::Returns(value) => return Ok((GenOut::Returns(value), None)),
            Move::Raises(fault) => return Ok((GenOut::Raises(fault), None)),
            Move::Runaway => return Ok((GenOut::Runaway, None)),
        }
    }
}
