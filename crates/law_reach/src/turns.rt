//! Laws of rows of changes in callbacks, turns and runs. Each function has no body: its clauses are
//! the laws. `S` is the state of what is added to the loop's own requests.
ghost use Rattle.model_value.specs.Action.{Action};
ghost use Rattle.std.specs.Prelude.{ℕ};
ghost use Rattle.model_wire.specs.Call.{Answer};
ghost use Rattle.model_machine.specs.Extra.{Extra};
ghost use Rattle.model_machine.specs.State.{State};
ghost use Rattle.model_machine.specs.Turn.{effect, run_pending, turn, turned_by};
ghost use Rattle.model_machine.specs.Went.{state_of};
ghost use Rattle.law_reach.specs.Asked.{WentAsks};
ghost use Rattle.law_reach.specs.Changes.{runner_of};
ghost use Rattle.law_reach.specs.Reaches.{GoesTo, InRun, InTurn, TurnsTo};

/// What a handle does is a row of changes, each of which may be made where it is made; and so are
/// all callbacks of a turn, and the turn. Each call in the middle of them takes an answer, but a
/// last one, at which the run ends.
pub fn turns_are_rows_of_changes<S>()
    ensures effect { (limit : ℕ) (added : Extra S) (it : Action) (s : State S)
        → GoesTo added (runner_of it) s (effect limit added it s) }
    ensures pending { (limit : ℕ) (added : Extra S) (s : State S)
        → TurnsTo added s (run_pending limit added s) }
    ensures turned { (limit : ℕ) (added : Extra S) (answer : Answer) (s : State S)
        → InTurn added s (state_of (turned_by limit added answer s)) }
    ensures turn { (limit : ℕ) (added : Extra S) (s : State S)
        → InRun s (state_of (turn limit added s)) }
    ensures asks { (limit : ℕ) (added : Extra S) (s : State S) → WentAsks s (turn limit added s) }
{}
