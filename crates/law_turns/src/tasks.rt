//! What steps of futures and tasks leave. Each function has no body: its clauses are the laws.
ghost use Rattle.std.specs.Prelude.{ℕ, Bool, true, List, Option, Result};
ghost use Rattle.model_value.specs.Input.{Input};
ghost use Rattle.model_value.specs.Value.{Value, Exc, Outcome};
ghost use Rattle.model_loop.specs.Cancel.{cancel};
ghost use Rattle.model_loop.specs.Entries.{AreTimed};
ghost use Rattle.model_loop.specs.Futures.{settle};
ghost use Rattle.model_loop.specs.Handles.{due};
ghost use Rattle.model_loop.specs.Ledger.{Origin, request_each};
ghost use Rattle.model_loop.specs.Parts.{Parts};
ghost use Rattle.model_loop.specs.Suspend.{suspend};
ghost use Rattle.model_loop.specs.Tasks.{begin_step, finish, spawn};
ghost use Rattle.law_changes.specs.Changes.{PartsChange, made_of_parts};
ghost use Rattle.law_changes.specs.Reaches.{Reaches};
ghost use Rattle.law_turns.specs.After.{IsAfter, MayLeave, OutcomeIn, ResultIn};

/// An outcome, a request to cancel, and one for each of several tasks.
pub fn outcomes_and_requests_leave_the_rest()
    ensures settle { (test : Value → Bool) (grown : Bool) (excused : Option ℕ) (id : ℕ)
        (outcome : Outcome)
        (p : Parts) → OutcomeIn test outcome → IsAfter test grown excused p (settle id outcome p) }
    ensures cancel { (test : Value → Bool) (grown : Bool) (excused : Option ℕ) (id : ℕ) (p : Parts)
        → IsAfter test grown excused p (cancel id p).parts }
    ensures each { (test : Value → Bool) (grown : Bool) (excused : Option ℕ) (by : Origin)
        (tasks : List ℕ) (p : Parts) → IsAfter test grown excused p
        (request_each by tasks p).parts }
{}

/// A task is made, its step begins, and ends by a wait or by the end of the task.
pub fn steps_of_tasks_leave_the_rest()
    ensures made { (test : Value → Bool) (excused : Option ℕ) (p : Parts)
        → IsAfter test true excused p (spawn p) }
    ensures begins { (test : Value → Bool) (grown : Bool) (excused : Option ℕ) (task : ℕ)
        (input : Input)
        (p : Parts) → IsAfter test grown excused p (begin_step task input p).parts }
    ensures suspends { (test : Value → Bool) (grown : Bool) (excused : Option ℕ) (task on : ℕ)
        (p : Parts)
        → IsAfter test grown excused p (suspend task on p).parts }
    ensures finishes { (test : Value → Bool) (grown : Bool) (excused : Option ℕ) (task : ℕ)
        (end : Result Value Exc) (p : Parts) → ResultIn test end
        → IsAfter test grown excused p (finish task end p) }
{}

/// Timers fall due.
pub fn timers_that_fall_due_leave_the_rest()
    ensures { (test : Value → Bool) (grown : Bool) (excused : Option ℕ) (p : Parts) → AreTimed p
        → IsAfter test grown excused p (due p) }
{}

/// So does each change of the parts that may be made so, and a row of them.
pub fn changes_leave_the_rest()
    ensures change { (test : Value → Bool) (grown : Bool) (excused : Option ℕ)
        (change : PartsChange) (p : Parts) → MayLeave test grown change p
        → IsAfter test grown excused p (made_of_parts change p) }
    ensures row { (test : Value → Bool) (grown : Bool) (excused : Option ℕ) (p q : Parts)
        → Reaches made_of_parts (MayLeave test grown) p q → IsAfter test grown excused p q }
{}
