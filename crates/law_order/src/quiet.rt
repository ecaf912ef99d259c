//! Changes of the loop. Each function has no body: its clauses are the law.
ghost use Rattle.std.specs.Prelude.{ℕ, ℤ, List, Option, Result};
ghost use Rattle.model_value.specs.Input.{Input};
ghost use Rattle.model_value.specs.Value.{Value, Exc};
ghost use Rattle.model_loop.specs.Cancel.{cancel};
ghost use Rattle.model_loop.specs.Ending.{cancel_everything};
ghost use Rattle.model_loop.specs.Groups.{child_done, create, enter_group, exit_begin};
ghost use Rattle.model_loop.specs.Groups.{exit_woken, make_group, next_group};
ghost use Rattle.model_loop.specs.Loop.{Loop};
ghost use Rattle.model_loop.specs.Parts.{Parts};
ghost use Rattle.model_loop.specs.Suspend.{suspend};
ghost use Rattle.model_loop.specs.Tasks.{begin_step, finish};
ghost use Rattle.model_loop.specs.Timeouts.{enter_timeout, exit_timeout, fire, reschedule};
ghost use Rattle.model_machine.specs.Extra.{ExtraStep, made_by_all};
ghost use Rattle.law_changes.specs.Changes.{PartsChange, made_of_parts};
ghost use Rattle.law_order.specs.Quiet.{IsQuiet, MayQuietParts};

/// A change of the parts that appends, times and registers no loss leaves no more losses to come,
/// and so does whatever tasks, timeouts, groups and what is added do to the loop.
pub fn nothing_of_the_loop_schedules_a_loss()
    ensures change { (change : PartsChange) (p : Parts) → MayQuietParts change p
        → IsQuiet p (made_of_parts change p) }
    ensures cancel { (future : ℕ) (p : Parts) → IsQuiet p (cancel future p).parts }
    ensures begins { (task : ℕ) (input : Input) (p : Parts)
        → IsQuiet p (begin_step task input p).parts }
    ensures finishes { (task : ℕ) (end : Result Value Exc) (p : Parts)
        → IsQuiet p (finish task end p) }
    ensures waits { (task on : ℕ) (p : Parts) → IsQuiet p (suspend task on p).parts }
    ensures ends { (l : Loop) → IsQuiet l.parts (cancel_everything l).parts }
    ensures enters { (task : ℕ) (delay : Option ℤ) (l : Loop)
        → IsQuiet l.parts (enter_timeout task delay l).parts }
    ensures reschedules { (id : ℕ) (when : Option ℤ) (l : Loop)
        → IsQuiet l.parts (reschedule id when l).parts }
    ensures fires { (id : ℕ) (l : Loop) → IsQuiet l.parts (fire id l).parts }
    ensures leaves { (raised : Option Exc) (id : ℕ) (l : Loop)
        → IsQuiet l.parts (exit_timeout raised id l).loop.parts }
    ensures enters_group { (task : ℕ) (l : Loop)
        → IsQuiet l.parts (enter_group (next_group l) (make_group task l)).parts }
    ensures creates { (id : ℕ) (l : Loop) → IsQuiet l.parts (create id l).parts }
    ensures told { (id task : ℕ) (l : Loop) → IsQuiet l.parts (child_done id task l).parts }
    ensures exits { (raised : Option Exc) (id : ℕ) (l : Loop)
        → IsQuiet l.parts (exit_begin raised id l).loop.parts }
    ensures woken { (input : Input) (id : ℕ) (l : Loop)
        → IsQuiet l.parts (exit_woken input id l).loop.parts }
    ensures added { (steps : List ExtraStep) (l : Loop)
        → IsQuiet l.parts (made_by_all steps l).parts }
{}
