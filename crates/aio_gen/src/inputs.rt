//! Inputs, which are the answers of requests.
ghost use Rattle.std.specs.Prelude.{◌≡◌, IfOk, OnOk, if◌then◌else◌};
ghost use Rattle.model_says.specs.Says.{step_limit};
ghost use Rattle.algorithm_flat.specs.Moves.{after_answer};
ghost use Rattle.algorithm_flat.specs.Tapes.{way_of, after_input};
ghost use Rattle.aio_gen.specs.Plain.{plain_frames};

use crate::frames::Frames;
use crate::types::{AnswerUse, OpenHandler, Way};
use aio_base::{Input, Memory, Value};

/// How many statements a step begins at most.
pub const STEP_LIMIT: u64 = 100_000;

impl Frames {
    /// The first input of a step gives it as many statements as it may have.
    pub fn renew(&mut self, fresh: bool)
        ensures { plain_frames self.new
            ≡ record (plain_frames self.old) {
              left = (if fresh then step_limit else self.old.left);
            } }
    {
        if fresh {
            self.left = STEP_LIMIT;
        }
    }

    /// What is sent is the answer, and what is thrown is raised.
    pub fn take_input(&mut self, input: Input, use_of: AnswerUse) -> Result<Way, Memory>
        ensures way { IfOk result (λ way. way ≡ way_of input) }
        ensures frames { OnOk result
            (plain_frames self.new ≡ after_input input use_of (plain_frames self.old)) }
    {
        match input {
            Input::Send(value) => {
                self.take_answer(use_of, value)?;
                Ok(Way::Passing)
            }
            Input::Throw(fault) => Ok(Way::Raising(fault)),
        }
    }

    fn take_answer(&mut self, use_of: AnswerUse, value: Value) -> Result<(), Memory>
        ensures { OnOk result
            (plain_frames self.new ≡ after_answer use_of value (plain_frames self.old)) }
    {
        match use_of {
            AnswerUse::Ignored => Ok(()),
            AnswerUse::AssignedTo(into) => {
                self.set_variable(&into, value);
                Ok(())
            }
            AnswerUse::Entered { name, range } => {
                let entered = value.clone()?;
                self.frame
                    .handlers
                    .push(OpenHandler::InWith(range, entered))?;
                self.frame.env.assign(name, value);
                Ok(())
            }
        }
    }
}
