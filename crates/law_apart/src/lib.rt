//! Futures that the loop of itself doesn't hold: it leaves them as they are, but for cancels. Each
//! function has no body: its clauses are the law.
#![tactic(auto)]

ghost use Rattle.std.specs.Prelude.{◌≡◌, ℕ, Bool, true, false, List, ◌∷◌, Result};
ghost use Rattle.model_value.specs.Input.{Input};
ghost use Rattle.model_value.specs.Request.{Request};
ghost use Rattle.model_value.specs.Value.{Exc, Value};
ghost use Rattle.model_wire.specs.Call.{Answer};
ghost use Rattle.model_loop.specs.Ending.{cancel_everything};
ghost use Rattle.model_loop.specs.Groups.{child_done};
ghost use Rattle.model_loop.specs.Loop.{Loop, in_parts};
ghost use Rattle.model_loop.specs.Parts.{Handle};
ghost use Rattle.model_loop.specs.Tasks.{finish};
ghost use Rattle.model_loop.specs.Timeouts.{fire};
ghost use Rattle.model_machine.specs.Extra.{Extra};
ghost use Rattle.model_machine.specs.Replies.{decides, reply};
ghost use Rattle.model_machine.specs.State.{ResumePoint, State};
ghost use Rattle.model_machine.specs.Turn.{run_first, woken_by};
ghost use Rattle.model_machine.specs.Went.{state_of};
ghost use Rattle.law_reach.specs.Reaches.{left_by};
ghost use Rattle.law_apart.specs.Apart.{AreBelow, GoesApart, IsApart, IsLoopApart, LoopGoesApart, is_extra_request, serves_none, steps_or_extra};

/// A request of the loop's own, and what a task makes of its input where it stands at none of what
/// is added, give no value to a future that neither a sleep, a group, a stream, a script nor a task
/// holds, and let none of these come to hold it.
pub fn requests_leave_what_is_not_the_loops<S>()
    ensures request { (ours : ℕ → Bool) (made : ℕ) → AreBelow ours made → (added : Extra S)
        (task : ℕ) (asked : Request) (s : State S) → is_extra_request asked ≡ false
        → IsApart ours made s → GoesApart ours made s (left_by (reply added task asked s)) }
    ensures resumed { (ours : ℕ → Bool) (made : ℕ) → AreBelow ours made → (added : Extra S)
        (task : ℕ) (resume_point : ResumePoint) (input : Input) (s : State S)
        → serves_none resume_point ≡ true → IsApart ours made s
        → GoesApart ours made s (left_by (decides added resume_point task input s)) }
{}

/// A callback of the loop's own that steps no task leaves them too: the end of a sleep, what is told
/// of tasks, timeouts and main, and callbacks of listeners, connections and children.
pub fn callbacks_leave_what_is_not_the_loops<S>()
    ensures callback { (ours : ℕ → Bool) (made : ℕ) → AreBelow ours made → (limit : ℕ)
        (added : Extra S) (handle : Handle) (rest : List Handle) (s : State S)
        → s.loop.parts.pending ≡ handle ∷ rest → steps_or_extra handle.action ≡ false
        → IsApart ours made s
        → GoesApart ours made s (state_of (run_first limit added handle rest s)) }
{}

/// Nor do a task's end, a timeout that fires, a group that is told of a task, the beginning of a
/// turn and the cancels at a run's end.
pub fn the_loop_leaves_what_is_not_its_own()
    ensures ends { (ours : ℕ → Bool) (made : ℕ) → AreBelow ours made → (task : ℕ)
        (end : Result Value Exc) (l : Loop) → IsLoopApart ours made l
        → LoopGoesApart ours made l (in_parts (finish task end) l) }
    ensures fires { (ours : ℕ → Bool) (made : ℕ) → AreBelow ours made → (id : ℕ) (l : Loop)
        → IsLoopApart ours made l → LoopGoesApart ours made l (fire id l) }
    ensures told { (ours : ℕ → Bool) (made : ℕ) → AreBelow ours made → (group task : ℕ) (l : Loop)
        → IsLoopApart ours made l → LoopGoesApart ours made l (child_done group task l) }
    ensures begins { (ours : ℕ → Bool) (made : ℕ) → AreBelow ours made → (answer : Answer) (l : Loop)
        → IsLoopApart ours made l → LoopGoesApart ours made l (in_parts (woken_by answer) l) }
    ensures over { (ours : ℕ → Bool) (made : ℕ) → AreBelow ours made → (l : Loop)
        → IsLoopApart ours made l → LoopGoesApart ours made l (cancel_everything l) }
{}
