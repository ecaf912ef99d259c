//! What a task does in its step keeps a state sound. Each function has no body: its clauses are the
//! laws.
ghost use Rattle.std.specs.Prelude.{◌≡◌, ℕ, ◌<◌, true, false, List, ◌∷◌, Option, Some, None, Result};
ghost use Rattle.std.specs.List.{All};
ghost use Rattle.model_value.specs.Input.{Input};
ghost use Rattle.model_value.specs.Value.{Value, Exc, Outcome};
ghost use Rattle.model_loop.specs.Parts.{Handle};
ghost use Rattle.model_loop.specs.Loop.{Loop, in_parts, book};
ghost use Rattle.model_loop.specs.Futures.{is_pending, next_future, new_plain, new_many, settle};
ghost use Rattle.model_loop.specs.Tasks.{begin_step, pause, finish, spawn};
ghost use Rattle.model_loop.specs.Suspend.{suspend};
ghost use Rattle.model_loop.specs.Groups.{group_of};
ghost use Rattle.model_loop.specs.Owning.{is_plain};
ghost use Rattle.model_loop.specs.Ways.{steps};
ghost use Rattle.model_loop.specs.Sound.{IsSound};
ghost use Rattle.law_steps.specs.Frames.{taken};

/// A step begins, by the handle that is taken out.
pub fn a_step_begins()
    ensures { (told : ℕ → List ℕ) (task : ℕ) (input : Input) (handle : Handle) (rest : List Handle)
        (l : Loop)
        → l.parts.pending ≡ handle ∷ rest → handle.dead ≡ false → steps task handle.action ≡ true
        → IsSound None told l
        → IsSound (Some task) told
        (record l { parts = (begin_step task input (taken rest l.parts)).parts }) }
{}

/// It ends: the next one is called soon, or the task waits for a future that isn't done, or it is
/// done. A task ends only once the blocks of its groups were left.
pub fn a_step_ends()
    ensures pauses { (told : ℕ → List ℕ) (task : ℕ) (l : Loop)
        → IsSound (Some task) told l → IsSound None told (in_parts (pause task) l) }
    ensures suspends { (told : ℕ → List ℕ) (task on : ℕ) (l : Loop) → is_pending l.parts on ≡ true
        → IsSound (Some task) told l → IsSound None told (book (suspend task on) l) }
    ensures finishes { (told : ℕ → List ℕ) (task : ℕ) (end : Result Value Exc) (l : Loop)
        → ((g : ℕ) → (group_of l g).entered ≡ true → (group_of l g).ended ≡ false
        → task ≡ (group_of l g).parent → ⊥)
        → IsSound (Some task) told l → IsSound None told (in_parts (finish task end) l) }
{}

/// A task is made, a plain future, and one that stands for others that there are.
pub fn what_is_made()
    ensures task { (running : Option ℕ) (told : ℕ → List ℕ) (l : Loop)
        → IsSound running told l → IsSound running told (in_parts spawn l) }
    ensures plain { (running : Option ℕ) (told : ℕ → List ℕ) (l : Loop)
        → IsSound running told l → IsSound running told (in_parts new_plain l) }
    ensures many { (running : Option ℕ) (told : ℕ → List ℕ) (members : List ℕ) (l : Loop)
        → All (λ member. member < next_future l.parts) members
        → IsSound running told l → IsSound running told (in_parts (new_many members) l) }
{}

/// A plain future gets its outcome.
pub fn a_future_is_resolved()
    ensures { (running : Option ℕ) (told : ℕ → List ℕ) (id : ℕ) (outcome : Outcome) (l : Loop)
        → is_plain l.parts id ≡ true
        → IsSound running told l → IsSound running told (in_parts (settle id outcome) l) }
{}
