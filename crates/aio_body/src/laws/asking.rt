//! Laws of calls that may ask the outside in the middle of a step. Each function has no body: its
//! clauses are the laws.
ghost use Rattle.std.specs.Prelude.{ℕ, List};
ghost use Rattle.model_value.specs.Request.{Request};
ghost use Rattle.model_wire.specs.Journal.{Entry};
ghost use Rattle.model_machine.specs.State.{State};
ghost use Rattle.aio_body.specs.Asked.{IsAskingFor, IsGoing};
ghost use Rattle.aio_body.specs.Stands.{IsBetween, Context};
ghost use Rattle.aio_body.specs.declared.run_state.RunState.{RunState};
ghost use Rattle.aio_body.specs.Answers.{with_answers, with_rest};

use aio_extra::Extra;

/// What is stood for, and is sound, is so whatever the outside has left to answer: between two
/// callbacks, and in the middle of a step.
pub fn other_answers_may_be_left<X: Extra>()
    ensures between { (left : List Entry) (c : Context X.added) (body : RunState X)
        (s : State X.added.Kept)
        → IsBetween c body s → IsBetween (with_rest left c) body (with_answers left s) }
    ensures going { (left : List Entry) (c : Context X.added) (body : RunState X)
        (s : State X.added.Kept) (task : ℕ)
        → IsGoing task c body s → IsGoing task (with_rest left c) body (with_answers left s) }
    ensures asking { (left : List Entry) (c : Context X.added) (body : RunState X)
        (s : State X.added.Kept) (task : ℕ) (request : Request)
        → IsAskingFor task request c body s
        → IsAskingFor task request (with_rest left c) body (with_answers left s) }
{}
