//! The steps of a group keep a state sound. Each function has no body: its clauses are the laws.
ghost use Rattle.std.specs.Prelude.{◌≡◌, ℕ, ◌<◌, length, true, false, List, ◌∷◌, Option, None};
ghost use Rattle.model_value.specs.declared.action.Action.TheVariants.{GroupDone};
ghost use Rattle.model_value.specs.Input.{Input};
ghost use Rattle.model_value.specs.Value.{Exc};
ghost use Rattle.model_loop.specs.Parts.{Handle};
ghost use Rattle.model_loop.specs.Loop.{Loop, in_parts};
ghost use Rattle.model_loop.specs.Tasks.{lives};
ghost use Rattle.model_loop.specs.Groups.{group_of, make_group, enter_group, create, child_done, exit_begin, exit_woken};
ghost use Rattle.model_loop.specs.Children.{told_more};
ghost use Rattle.model_loop.specs.Sound.{IsSound};
ghost use Rattle.law_steps.specs.Frames.{taken};

/// It is made, entered by a task that lives, and a task is made in it.
pub fn a_group_grows()
    ensures make { (running : Option ℕ) (told : ℕ → List ℕ) (parent : ℕ) (l : Loop)
        → IsSound running told l → IsSound running told (make_group parent l) }
    ensures enter { (running : Option ℕ) (told : ℕ → List ℕ) (id : ℕ) (l : Loop)
        → id < length l.groups → lives l.parts (group_of l id).parent ≡ true
        → IsSound running told l → IsSound running told (enter_group id l) }
    ensures create { (running : Option ℕ) (told : ℕ → List ℕ) (id : ℕ) (l : Loop)
        → IsSound running told l → IsSound running told (create id l) }
{}

/// It is told of a child that is done, by the handle that is taken out.
pub fn a_group_is_told()
    ensures { (told : ℕ → List ℕ) (id task : ℕ) (handle : Handle) (rest : List Handle) (l : Loop)
        → l.parts.pending ≡ handle ∷ rest → handle.dead ≡ false → handle.action ≡ GroupDone id task
        → IsSound None told l
        → IsSound None (told_more told id task) (child_done id task (in_parts (taken rest) l)) }
{}

/// Its exit begins, and goes on after a wait.
pub fn an_exit_goes_on()
    ensures begins { (running : Option ℕ) (told : ℕ → List ℕ) (raised : Option Exc) (id : ℕ)
        (l : Loop)
        → id < length l.groups → (group_of l id).entered ≡ true → (group_of l id).exiting ≡ false
        → IsSound running told l → IsSound running told (exit_begin raised id l).loop }
    ensures woken { (running : Option ℕ) (told : ℕ → List ℕ) (input : Input) (id : ℕ) (l : Loop)
        → id < length l.groups → (group_of l id).exiting ≡ true → (group_of l id).ended ≡ false
        → IsSound running told l → IsSound running told (exit_woken input id l).loop }
{}
