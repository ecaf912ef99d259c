//! Laws of turns and runs, whatever is open and whatever the outside answers. Each function has no
//! body: its clauses are the laws. `S` is the state of what is added to the loop's own requests,
//! whatever that is.
ghost use Rattle.std.specs.Prelude.{ℕ};
ghost use Rattle.model_machine.specs.Extra.{Extra};
ghost use Rattle.model_machine.specs.State.{State};
ghost use Rattle.model_machine.specs.Turn.{run_below, turn};
ghost use Rattle.law_walk.specs.Walks.{BeginWith, IsRunIn, WentLeaves};

/// What happened stays: the events of each state of a run begin with those of the state from which
/// it went on, between two turns, between any two callbacks of a turn, and where the run ends, but
/// where a call has no answer that fits. So it is after a turn, and after callbacks that are left
/// of one.
pub fn what_happened_stays<S>()
    ensures run { (limit : ℕ) (added : Extra S) (turns : ℕ) (s : State S)
        → IsRunIn (BeginWith s.events) limit added turns s }
    ensures turn { (limit : ℕ) (added : Extra S) (s : State S)
        → WentLeaves (BeginWith s.events) (turn limit added s) }
    ensures callbacks { (limit : ℕ) (added : Extra S) (bar count : ℕ) (s : State S)
        → WentLeaves (BeginWith s.events) (run_below limit added bar count s) }
{}
