//! Laws of must_cancel, by which a cancel waits for its task's next step. Each function has no
//! body: its clauses are the laws, of every state (so far where nothing is open). `S` is the state
//! of what is added to the loop's own requests.
ghost use Rattle.std.specs.Prelude.{◌≡◌, ◌⊎◌, ℕ, Bool, false, List};
ghost use Rattle.model_value.specs.Input.{Input};
ghost use Rattle.model_wire.specs.Call.{Answer};
ghost use Rattle.model_loop.specs.Parts.{Handle};
ghost use Rattle.model_loop.specs.Tasks.{begin_step};
ghost use Rattle.model_loop.specs.Ways.{steps};
ghost use Rattle.model_machine.specs.Extra.{Extra};
ghost use Rattle.model_machine.specs.State.{State, generator_of, unbooked_in};
ghost use Rattle.model_machine.specs.Step.{given_up};
ghost use Rattle.model_machine.specs.Turn.{run_first, turn_over, woken_by};
ghost use Rattle.model_machine.specs.Went.{state_of};
ghost use Rattle.law_promises.specs.KeepsMustCancel.{AllTakenBack};
ghost use Rattle.law_promises.specs.MustCancelIn.{IsMustCancel, ThrowsCancel};

/// must_cancel stays while callbacks run that don't step its task, whatever they do; and so it does
/// at the beginning and at the end of a turn. In profile 2 such a callback may take back all
/// requests to cancel the task, by an `uncancel` that lowers its count from 1 to 0, and then
/// must_cancel may fall.
pub fn must_cancel_waits_for_its_tasks_step<S>()
    ensures callback { (limit : ℕ) (added : Extra S) (s : State S) (handle : Handle)
        (rest : List Handle) (task : ℕ)
        → steps task handle.action ≡ false → IsMustCancel task s
        → IsMustCancel task (state_of (run_first limit added handle rest s))
        ⊎ AllTakenBack task s.loop (state_of (run_first limit added handle rest s)).loop }
    ensures woken { (answer : Answer) (s : State S) (task : ℕ) → IsMustCancel task s
        → IsMustCancel task (unbooked_in (woken_by answer) s) }
    ensures over { (done_before : Bool) (s : State S) (task : ℕ) → IsMustCancel task s
        → IsMustCancel task (state_of (turn_over done_before s)) }
{}

/// In both profiles that step then begins with a CancelledError, whatever else it would have begun
/// with.
pub fn a_task_with_must_cancel_is_thrown_a_cancel<S>()
    ensures { (s : State S) (task : ℕ) (input : Input) → IsMustCancel task s →
        let begun = begin_step task input
        (given_up (generator_of task s).resume_point s.loop.parts) in
        ThrowsCancel begun.input }
{}
