//! Laws of groups. Each function has no body: its clauses are the laws.
ghost use Rattle.std.specs.Prelude.{◌≡◌, ℕ, ◌<◌, length, true, false, List, ◌∷◌, Option, None};
ghost use Rattle.model_value.specs.declared.action.Action.TheVariants.{GroupDone};
ghost use Rattle.model_value.specs.Input.{Input};
ghost use Rattle.model_value.specs.Value.{Exc};
ghost use Rattle.model_loop.specs.Parts.{Handle};
ghost use Rattle.model_loop.specs.Loop.{Loop, in_parts};
ghost use Rattle.model_loop.specs.Tasks.{lives};
ghost use Rattle.model_loop.specs.Groups.{group_of, make_group, enter_group, create, child_done, exit_begin, exit_woken};
ghost use Rattle.model_loop.specs.Children.{IsOrderly, told_more};
ghost use Rattle.law_steps.specs.Frames.{taken, Covers};
ghost use Rattle.law_groups.specs.Holds.{Holds};

/// A group is made, entered, and given a task.
pub fn a_group_grows_soundly()
    ensures make { (running excused : Option ℕ) (told : ℕ → List ℕ) (parent : ℕ) (l : Loop)
        → Holds running excused told told (group_of l) l.parts
        → Holds running excused told told (group_of (make_group parent l))
        (make_group parent l).parts }
    ensures enter { (running excused : Option ℕ) (told : ℕ → List ℕ) (id : ℕ) (l : Loop)
        → id < length l.groups → lives l.parts (group_of l id).parent ≡ true
        → Holds running excused told told (group_of l) l.parts
        → Holds running excused told told (group_of (enter_group id l)) (enter_group id l).parts }
    ensures create { (running excused : Option ℕ) (told : ℕ → List ℕ) (id : ℕ) (l : Loop)
        → Holds running excused told told (group_of l) l.parts
        → Holds running excused told told (group_of (create id l)) (create id l).parts }
{}

/// A group is told of a child that is done, with the handle that tells it.
pub fn a_group_is_told_soundly()
    ensures { (id task : ℕ) (handle : Handle) (rest : List Handle) (told : ℕ → List ℕ) (l : Loop)
        → l.parts.pending ≡ handle ∷ rest → handle.dead ≡ false → handle.action ≡ GroupDone id task
        → Holds None None told told (group_of l) l.parts
        → Holds None None (told_more told id task) (told_more told id task)
        (group_of (child_done id task (in_parts (taken rest) l)))
        (child_done id task (in_parts (taken rest) l)).parts }
{}

/// Its exit begins, and goes on after a wait.
pub fn an_exit_goes_soundly()
    ensures begins { (running excused : Option ℕ) → Covers running excused
        → (told : ℕ → List ℕ) (raised : Option Exc) (id : ℕ)
        (l : Loop) → id < length l.groups → (group_of l id).entered ≡ true
        → (group_of l id).exiting ≡ false
        → Holds running excused told told (group_of l) l.parts
        → ((j : ℕ) → IsOrderly (group_of l j))
        → Holds running excused told told (group_of (exit_begin raised id l).loop)
        (exit_begin raised id l).loop.parts
        × ((j : ℕ) → IsOrderly (group_of (exit_begin raised id l).loop j)) }
    ensures woken { (running excused : Option ℕ) → Covers running excused
        → (told : ℕ → List ℕ) (input : Input) (id : ℕ)
        (l : Loop) → id < length l.groups → (group_of l id).exiting ≡ true
        → (group_of l id).ended ≡ false
        → Holds running excused told told (group_of l) l.parts
        → ((j : ℕ) → IsOrderly (group_of l j))
        → Holds running excused told told (group_of (exit_woken input id l).loop)
        (exit_woken input id l).loop.parts
        × ((j : ℕ) → IsOrderly (group_of (exit_woken input id l).loop j)) }
{}
