//! Laws of counts: what timeouts and groups will take back of them is there. Each function has no
//! body: its clauses are the laws.
ghost use Rattle.std.specs.Prelude.{◌≡◌, ℕ, ◌<◌, true, false, List, length, Option};
ghost use Rattle.model_value.specs.Input.{Input};
ghost use Rattle.model_value.specs.Value.{Exc};
ghost use Rattle.model_loop.specs.Cancel.{cancel};
ghost use Rattle.model_loop.specs.Groups.{child_done, exit_begin, exit_woken, group_of};
ghost use Rattle.model_loop.specs.Loop.{Loop};
ghost use Rattle.model_loop.specs.Owning.{OwnsFutures};
ghost use Rattle.model_loop.specs.Parts.{Parts};
ghost use Rattle.model_loop.specs.Tasks.{cancelling, future_of, lives, one_more};
ghost use Rattle.model_loop.specs.Timeouts.{exit_timeout, fire, timeout_of};
ghost use Rattle.model_machine.specs.Extra.{ExtraStep, made_by_all};
ghost use Rattle.law_promises.specs.Owed.{IsCovered, IsRight, takes_no_more};

/// A request to cancel a task that lives raises its count by one, unless that is the greatest.
pub fn a_request_raises_its_task()
    ensures { (p : Parts) (task : ℕ) → OwnsFutures p → lives p task ≡ true
        → cancelling (cancel (future_of p task) p).parts task ≡ one_more (cancelling p task) }
{}

/// What is owed stays covered, in both profiles: as a timeout fires and is left, as a group is told
/// of a task, as its exit begins and goes on after a wait, and by what is added. A group owes what
/// it asked for until it is past the point at which it takes that back: in profile 1 the beginning
/// of its exit, in profile 2 the end of it.
pub fn what_is_owed_stays_covered()
    ensures fires { (id : ℕ) (l : Loop) → OwnsFutures l.parts → IsRight l → IsCovered l
        → IsCovered (fire id l) }
    ensures left { (raised : Option Exc) (id : ℕ) (l : Loop)
        → lives l.parts (timeout_of l id).task ≡ true → IsRight l → IsCovered l
        → IsCovered (exit_timeout raised id l).loop }
    ensures told { (id task : ℕ) (l : Loop) → OwnsFutures l.parts → IsRight l → IsCovered l
        → IsCovered (child_done id task l) }
    ensures begins { (raised : Option Exc) (id : ℕ) (l : Loop) → id < length l.groups
        → (group_of l id).entered ≡ true → takes_no_more l.profile (group_of l id) ≡ false
        → lives l.parts (group_of l id).parent ≡ true → IsRight l → IsCovered l
        → IsCovered (exit_begin raised id l).loop }
    ensures woken { (input : Input) (id : ℕ) (l : Loop) → id < length l.groups
        → (group_of l id).entered ≡ true → (group_of l id).ended ≡ false
        → lives l.parts (group_of l id).parent ≡ true → IsRight l → IsCovered l
        → IsCovered (exit_woken input id l).loop }
    ensures added { (steps : List ExtraStep) (l : Loop) → IsRight l → IsCovered l
        → IsCovered (made_by_all steps l) }
{}
