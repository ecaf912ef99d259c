//! Laws of the calls of what is added, over a whole run. Each function has no body: its clauses are
//! the laws. `S` is the state of what is added to the loop's own requests, whatever that is.
ghost use Rattle.std.specs.Prelude.{ℕ, List};
ghost use Rattle.model_tree.specs.Syntax.{Program};
ghost use Rattle.model_wire.specs.Journal.{Entry};
ghost use Rattle.model_machine.specs.Extra.{Extra};
ghost use Rattle.model_machine.specs.State.{State, start};
ghost use Rattle.law_calls.specs.Tells.{IsRunIn};
ghost use Rattle.law_calls.specs.Told.{HasHappened, Told, first_told};

/// In each state of each run of every program, over whatever the outside answers: what is kept came
/// by calls alone, one after another, each from what the one before left: of a task that asked, with
/// the code and the arguments that its coroutine says; of a request whose wait was over, as a step
/// of its task began or at once; of what the outside answered to what was asked right before; of its
/// own handle that ran; and of news. And what they told are the events that are of what is added, in
/// order, each once. So it is between two turns, between any two callbacks of a turn, and where the
/// run ends, but where it ends in the middle of a step.
pub fn its_calls_are_what_the_events_say<S>()
    ensures from_start { (limit : ℕ) (added : Extra S) (most : ℕ) (state : S) (program : Program)
        (answers : List Entry) (turns : ℕ)
        → IsRunIn (HasHappened limit added (first_told state)) limit added turns
        (start most state program answers) }
    ensures from_any { (limit : ℕ) (added : Extra S) (first : Told S) (turns : ℕ) (s : State S)
        → HasHappened limit added first s.extra s.events
        → IsRunIn (HasHappened limit added first) limit added turns s }
{}
