//! The stepper.
ghost use Rattle.std.specs.Prelude.{◌≡◌, ℕ, List, [], ◌∷◌, ◌++◌, IfOk, IfErr, IsErr};
ghost use Rattle.model_value.specs.Request.{Request as PlainRequest};
ghost use Rattle.model_value.specs.Value.{Value as PlainValue};
ghost use Rattle.model_tree.specs.Syntax.{Program};
ghost use Rattle.model_says.specs.Says.{says};
ghost use Rattle.model_says.specs.Tape.{Tape};
ghost use Rattle.aio_flat.specs.Code.{IsCodeOf};
ghost use Rattle.aio_gen.specs.Gens.{saying_of_out, StandsAt, GenStandsFor, IsOver};
ghost use Rattle.aio_gen.specs.declared.generator.GenOut.TheVariants.{Asks};

use crate::calls::new_frame;
use crate::frames::Frames;
use crate::inputs::STEP_LIMIT;
use crate::run::run;
use crate::types::AnswerUse;
use aio_base::{Exc, Input, Memory, Request, Value};
use aio_flat::Code;
use std::alloc::Global;

/// What a coroutine says when it is resumed.
#[derive(Drop)]
pub enum GenOut {
    Asks(Request),
    Returns(Value),
    Raises(Exc),
    /// One statement more would begin in a step than a step may have.
    Runaway,
}

/// Frames that wait for the answer of a request.
#[derive(Drop)]
pub struct Waiting {
    pub frames: Frames,
    pub use_of: AnswerUse,
}

/// A coroutine that is resumed with one input at a time. It holds the open frames, and no tape.
#[derive(Drop)]
pub struct Gen {
    // in memory of its own, so that a place for a coroutine is small
    waiting: Box<Option<Waiting>>,
}

impl Gen {
    /// A coroutine of the code, by its place, for these arguments. It waits as after a bare
    /// `yield`: its first input begins the body, or is raised.
    pub fn start(
        alloc: Global,
        code: &Code,
        coroutine: u32,
        args: Vec<Value>,
    ) -> Result<Gen, Memory>
        ensures { IfOk result (λ gen. (program : Program) → IsCodeOf program code.now →
            GenStandsFor program code.now coroutine args.items [] gen) }
    {
        let frame = new_frame(alloc, code, None, coroutine, args.as_slice())?;
        let frames = Frames {
            frame,
            callers: Vec::new(alloc),
            left: STEP_LIMIT,
        };
        let waiting = Waiting {
            frames,
            use_of: AnswerUse::Ignored,
        };
        let waiting = Box::new(alloc, Some(waiting))?;
        Ok(Gen { waiting })
    }

    /// What the coroutine says after one input more, which is `fresh` where it begins a step of its
    /// task. The code is the one that it was started with.
    ///
    /// After `Memory` it answers `Memory` again. After what isn't a request it has nothing more to
    /// say: it answers `Memory` then, too.
    pub fn resume(
        &mut self,
        alloc: Global,
        code: &Code,
        input: Input,
        fresh: bool,
    ) -> Result<GenOut, Memory>
        ensures said { IfOk result (λ out.
            (program : Program) (coroutine : ℕ) (arguments : List PlainValue) (tape : Tape)
            → IsCodeOf program code.now →
            GenStandsFor program code.now coroutine arguments tape self.old →
            says program coroutine arguments (tape ++ record { input = input; fresh = fresh } ∷ [])
            ≡ saying_of_out out) }
        ensures stands { IfOk result (λ out.
            (program : Program) (coroutine : ℕ) (arguments : List PlainValue) (tape : Tape)
            → IsCodeOf program code.now →
            GenStandsFor program code.now coroutine arguments tape self.old →
            (request : PlainRequest) → out ≡ Asks request →
            GenStandsFor program code.now coroutine arguments
            (tape ++ record { input = input; fresh = fresh } ∷ []) self.new) }
        ensures over { IfErr result (λ _. IsOver self.new) }
        ensures spent { IsOver self.old → IsErr result }
    {
        let Some(waiting) = self.waiting.take() else {
            return Err(Memory);
        };
        let (out, next) = resumed(alloc, code, waiting, input, fresh)?;
        put(&mut *self.waiting, next);
        Ok(out)
    }
}

fn put(slot: &mut Option<Waiting>, next: Option<Waiting>)
    ensures { slot.new ≡ next }
{
    *slot = next;
}

/// What frames that wait say after an input, and what waits then.
fn resumed(
    alloc: Global,
    code: &Code,
    waiting: Waiting,
    input: Input,
    fresh: bool,
) -> Result<(GenOut, Option<Waiting>), Memory>
    ensures said { IfOk result (λ made.
        (program : Program) (coroutine : ℕ) (arguments : List PlainValue) (tape : Tape)
        → IsCodeOf program code.now →
        StandsAt program code.now coroutine arguments tape (Some waiting) →
        says program coroutine arguments (tape ++ record { input = input; fresh = fresh } ∷ [])
        ≡ saying_of_out made.0) }
    ensures stands { IfOk result (λ made.
        (program : Program) (coroutine : ℕ) (arguments : List PlainValue) (tape : Tape)
        → IsCodeOf program code.now →
        StandsAt program code.now coroutine arguments tape (Some waiting) →
        (request : PlainRequest) → made.0 ≡ Asks request →
        StandsAt program code.now coroutine arguments
        (tape ++ record { input = input; fresh = fresh } ∷ []) made.1) }
{
    let Waiting { mut frames, use_of } = waiting;
    frames.renew(fresh);
    let way = frames.take_input(input, use_of)?;
    run(alloc, code, way, frames)
}
