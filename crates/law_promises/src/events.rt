//! Laws of what happens after a task is done. Each function has no body: its clauses are the laws.
//! `S` is the state of what is added to the loop's own requests.
ghost use Rattle.std.specs.Prelude.{◌≡◌, ℕ, List, ◌∷◌};
ghost use Rattle.model_says.specs.Says.{step_limit};
ghost use Rattle.model_loop.specs.Parts.{Handle};
ghost use Rattle.model_machine.specs.Extra.{Extra};
ghost use Rattle.model_machine.specs.Run.{run_on};
ghost use Rattle.model_machine.specs.Sound.{IsStateSound};
ghost use Rattle.model_machine.specs.State.{State};
ghost use Rattle.model_machine.specs.Turn.{run_first, turn};
ghost use Rattle.model_machine.specs.Went.{state_of};
ghost use Rattle.law_replies.specs.Added.{KeepsSound};
ghost use Rattle.law_promises.specs.Done.{GoesOnWithout, IsDone, LeavesDone};

/// Once a task is done, nothing happens of it any more: it says nothing, and none of its steps and
/// wakeups runs. So it is for one callback, for a turn, and for a run from any sound state on, and
/// every state of a run is sound.
pub fn no_event_of_a_done_task<S>()
    ensures callback { (added : Extra S) (s : State S) (handle : Handle) (rest : List Handle)
        → s.loop.parts.pending ≡ handle ∷ rest → IsStateSound added s
        → LeavesDone s (state_of (run_first step_limit added handle rest s)) }
    ensures turn { (added : Extra S) → KeepsSound added
        → (s : State S) → IsStateSound added s → LeavesDone s (state_of (turn step_limit added s)) }
    ensures run { (added : Extra S) → KeepsSound added
        → (allowed left : ℕ) (s : State S) → IsStateSound added s
        → (task : ℕ) → IsDone s.loop.parts task
        → GoesOnWithout task s.events (run_on step_limit added allowed left s).events }
{}
