//! Laws of what groups are told. Each function has no body: its clauses are the laws.
ghost use Rattle.std.specs.Prelude.{◌≡◌, ℕ, true, false, List, ◌∷◌, Option, Some, None, Result};
ghost use Rattle.model_value.specs.Input.{Input};
ghost use Rattle.model_value.specs.Value.{Value, Exc, Outcome};
ghost use Rattle.model_loop.specs.Parts.{FutureKind, Handle, Parts};
ghost use Rattle.model_loop.specs.Loop.{Group};
ghost use Rattle.model_loop.specs.Futures.{is_pending, make_future, settle};
ghost use Rattle.model_loop.specs.Tasks.{begin_step, pause, finish, spawn};
ghost use Rattle.model_loop.specs.Cancel.{cancel};
ghost use Rattle.model_loop.specs.Ledger.{Origin, request_each};
ghost use Rattle.model_loop.specs.Suspend.{suspend};
ghost use Rattle.model_loop.specs.Ways.{steps};
ghost use Rattle.model_loop.specs.Owning.{owner_in};
ghost use Rattle.law_steps.specs.Frames.{taken, Covers, IsNoTask};
ghost use Rattle.law_groups.specs.Holds.{Holds};

/// Requests and outcomes keep what holds of the parts and of all groups.
pub fn requests_keep_groups()
    ensures one { (running excused : Option ℕ) → Covers running excused
        → (told heard : ℕ → List ℕ) (groups : ℕ → Group)
        (id : ℕ) (p : Parts)
        → Holds running excused told heard groups p
        → Holds running excused told heard groups (cancel id p).parts }
    ensures each { (running excused : Option ℕ) → Covers running excused
        → (told heard : ℕ → List ℕ) (groups : ℕ → Group)
        (by : Origin) (tasks : List ℕ) (p : Parts)
        → Holds running excused told heard groups p
        → Holds running excused told heard groups (request_each by tasks p).parts }
    ensures settle { (running excused : Option ℕ) (told heard : ℕ → List ℕ) (groups : ℕ → Group)
        (id : ℕ) (outcome : Outcome)
        (p : Parts) → IsNoTask p id
        → Holds running excused told heard groups p
        → Holds running excused told heard groups (settle id outcome p) }
{}

/// So does each part of a task's step; a task that ends is the parent of no group whose block is
/// open.
pub fn steps_keep_groups()
    ensures begins { (told heard : ℕ → List ℕ) (groups : ℕ → Group) (task : ℕ) (input : Input)
        (handle : Handle)
        (rest : List Handle) (p : Parts) → p.pending ≡ handle ∷ rest → handle.dead ≡ false
        → steps task handle.action ≡ true
        → Holds None None told heard groups p
        → Holds (Some task) (Some task) told heard groups
        (begin_step task input (taken rest p)).parts }
    ensures pauses { (told heard : ℕ → List ℕ) (groups : ℕ → Group) (task : ℕ) (p : Parts)
        → Holds (Some task) (Some task) told heard groups p
        → Holds None None told heard groups (pause task p) }
    ensures suspends { (told heard : ℕ → List ℕ) (groups : ℕ → Group) (task on : ℕ) (p : Parts)
        → is_pending p on ≡ true
        → Holds (Some task) (Some task) told heard groups p
        → Holds None None told heard groups (suspend task on p).parts }
    ensures finishes { (told heard : ℕ → List ℕ) (groups : ℕ → Group) (task : ℕ)
        (end : Result Value Exc) (p : Parts)
        → ((g : ℕ) → (groups g).entered ≡ true → (groups g).ended ≡ false
        → task ≡ (groups g).parent → ⊥)
        → Holds (Some task) (Some task) told heard groups p
        → Holds None None told heard groups (finish task end p) }
{}

/// So does what is made.
pub fn what_is_made_keeps_groups()
    ensures spawn { (running excused : Option ℕ) (told : ℕ → List ℕ) (groups : ℕ → Group)
        (p : Parts)
        → Holds running excused told told groups p
        → Holds running excused told told groups (spawn p) }
    ensures make { (kind : FutureKind) → owner_in kind ≡ None
        → (running excused : Option ℕ) (told heard : ℕ → List ℕ)
        (groups : ℕ → Group) (p : Parts)
        → Holds running excused told heard groups p
        → Holds running excused told heard groups (make_future kind p) }
{}
