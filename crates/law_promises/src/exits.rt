//! What a group's exit raises. Each function has no body: its clauses are the laws.
ghost use Rattle.std.specs.Prelude.{◌≡◌, ℕ, ◌<◌, true, false, List, length, Option};
ghost use Rattle.model_value.specs.Input.{Input};
ghost use Rattle.model_value.specs.Value.{Exc};
ghost use Rattle.model_loop.specs.Loop.{Loop};
ghost use Rattle.model_loop.specs.Groups.{exit_begin, exit_woken, group_of};
ghost use Rattle.model_loop.specs.Sound.{IsSound};
ghost use Rattle.law_promises.specs.Raised.{RaisesWhatFailed};

/// Where the exit of a group ends, as it begins or after a wait, it raises together the failures of
/// the group's tasks, in the order in which it was told of them, and last the body's; where nothing
/// failed, the cancel that it kept, or nothing.
pub fn an_exit_raises_what_failed()
    ensures begins { (running : Option ℕ) (told : ℕ → List ℕ) (raised : Option Exc) (id : ℕ)
        (l : Loop)
        → id < length l.groups → (group_of l id).entered ≡ true → (group_of l id).exiting ≡ false
        → IsSound running told l → RaisesWhatFailed (told id) id (exit_begin raised id l) }
    ensures woken { (running : Option ℕ) (told : ℕ → List ℕ) (input : Input) (id : ℕ) (l : Loop)
        → id < length l.groups → (group_of l id).exiting ≡ true → (group_of l id).ended ≡ false
        → IsSound running told l → RaisesWhatFailed (told id) id (exit_woken input id l) }
{}
