//! What steps of timeouts and groups leave. Each function has no body: its clauses are the laws.
ghost use Rattle.std.specs.Prelude.{◌≡◌, ℕ, ◌<◌, ℤ, Bool, true, false, length, Option, Some, None};
ghost use Rattle.model_value.specs.Input.{Input};
ghost use Rattle.model_value.specs.Value.{Value, Nothing, Exc};
ghost use Rattle.model_loop.specs.Groups.{child_done, create, exit_begin, exit_woken};
ghost use Rattle.model_loop.specs.Loop.{Loop};
ghost use Rattle.model_loop.specs.Timeouts.{exit_timeout, fire, reschedule, timeout_of};
ghost use Rattle.model_machine.specs.Sound.{is_open};
ghost use Rattle.law_groups.specs.Tags.{HaveTags};
ghost use Rattle.law_changes.specs.Changes.{LoopChange, made_of_loop};
ghost use Rattle.law_changes.specs.Reaches.{Reaches};
ghost use Rattle.law_turns.specs.After.{IsLoopAfter, MayLeaveLoop};

/// A timeout gets another deadline, fires while it is open, and is left, which closes it.
pub fn steps_of_timeouts_leave_the_rest()
    ensures reschedule { (test : Value → Bool) → test Nothing ≡ true
        → (excused : Option ℕ) (id : ℕ) (when : Option ℤ) (l : Loop) → HaveTags l
        → IsLoopAfter test false excused None None None l (reschedule id when l) }
    ensures fire { (test : Value → Bool) → test Nothing ≡ true
        → (excused : Option ℕ) (id : ℕ) (l : Loop) → is_open (timeout_of l id).state ≡ true
        → IsLoopAfter test false excused None None None l (fire id l) }
    ensures leave { (test : Value → Bool) → test Nothing ≡ true
        → (excused : Option ℕ) (raised : Option Exc) (id : ℕ) (l : Loop) → HaveTags l
        → IsLoopAfter test false excused (Some id) None None l (exit_timeout raised id l).loop }
    ensures closed { (raised : Option Exc) (id : ℕ) (l : Loop) → HaveTags l → id < length l.timeouts
        → is_open (timeout_of (exit_timeout raised id l).loop id).state ≡ false }
{}

/// A task is made in a group, the group is told of one, and its exit begins and goes on.
pub fn steps_of_groups_leave_the_rest()
    ensures create { (test : Value → Bool) → test Nothing ≡ true
        → (excused : Option ℕ) (id : ℕ) (l : Loop)
        → IsLoopAfter test true excused None None None l (create id l) }
    ensures told { (test : Value → Bool) → test Nothing ≡ true
        → (excused : Option ℕ) (id task : ℕ) (l : Loop)
        → IsLoopAfter test false excused None None None l (child_done id task l) }
    ensures begins { (test : Value → Bool) → test Nothing ≡ true
        → (excused : Option ℕ) (raised : Option Exc) (id : ℕ) (l : Loop)
        → IsLoopAfter test false excused None (Some id) (Some id) l (exit_begin raised id l).loop }
    ensures woken { (test : Value → Bool) → test Nothing ≡ true
        → (excused : Option ℕ) (input : Input) (id : ℕ) (l : Loop)
        → IsLoopAfter test false excused None (Some id) None l (exit_woken input id l).loop }
{}

/// So does each change of the loop that may be made so, and a row of them.
pub fn changes_of_the_loop_leave_the_rest()
    ensures change { (test : Value → Bool) → test Nothing ≡ true
        → (grown : Bool) (excused timeout group begun : Option ℕ) (change : LoopChange) (l : Loop)
        → MayLeaveLoop test grown timeout group begun change l
        → IsLoopAfter test grown excused timeout group begun l (made_of_loop change l) }
    ensures row { (test : Value → Bool) → test Nothing ≡ true
        → (grown : Bool) (excused timeout group begun : Option ℕ) (l m : Loop)
        → Reaches made_of_loop (MayLeaveLoop test grown timeout group begun) l m
        → IsLoopAfter test grown excused timeout group begun l m }
{}
