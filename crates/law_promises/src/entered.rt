//! Laws of groups that a run made, whatever is open and whatever the outside answers. Each function
//! has no body: its clauses are the laws. `S` is the state of what is added to the loop's own
//! requests, whatever that is.
ghost use Rattle.std.specs.Prelude.{◌≡◌, ◌<◌, ℕ, true, false, List, length, Option};
ghost use Rattle.model_tree.specs.Syntax.{Program};
ghost use Rattle.model_wire.specs.Journal.{Entry};
ghost use Rattle.model_loop.specs.Groups.{group_of};
ghost use Rattle.model_loop.specs.Loop.{Loop};
ghost use Rattle.model_loop.specs.Sound.{IsSound};
ghost use Rattle.model_loop.specs.Tasks.{lives};
ghost use Rattle.model_machine.specs.Extra.{Extra};
ghost use Rattle.model_machine.specs.State.{State, start};
ghost use Rattle.law_promises.specs.Entered.{AllEntered, AreEntered, IsRunBetween};

/// Each group that was made is entered, in each state of each run between two turns and between two
/// callbacks: it is made and entered by one request, and nothing takes that back.
pub fn every_group_is_entered<S>()
    ensures run { (limit : ℕ) (added : Extra S) (turns most : ℕ) (state : S) (program : Program)
        (answers : List Entry)
        → IsRunBetween AreEntered limit added turns (start most state program answers) }
    ensures any { (limit : ℕ) (added : Extra S) (turns : ℕ) (s : State S)
        → AreEntered s → IsRunBetween AreEntered limit added turns s }
{}

/// So a group's parent lives until the group's exit has ended, in each such state that is sound, as
/// each is.
pub fn a_groups_parent_lives_until_its_exit_has_ended()
    ensures { (running : Option ℕ) (told : ℕ → List ℕ) (l : Loop) → IsSound running told l
        → AllEntered l → (id : ℕ) → id < length l.groups → (group_of l id).ended ≡ false
        → lives l.parts (group_of l id).parent ≡ true }
{}
