//! Laws of what is added to the loop's own requests. Each function has no body: its clauses are the
//! laws.
ghost use Rattle.std.specs.Prelude.{◌≡◌, ℕ, ◌<◌, List, Option, None};
ghost use Rattle.std.specs.List.{All};
ghost use Rattle.model_value.specs.Value.{Outcome};
ghost use Rattle.model_tree.specs.Syntax.{Program};
ghost use Rattle.model_wire.specs.Journal.{Entry};
ghost use Rattle.model_loop.specs.Entries.{entries};
ghost use Rattle.model_loop.specs.Futures.{next_future};
ghost use Rattle.model_loop.specs.Loop.{Loop};
ghost use Rattle.model_loop.specs.Owning.{owner_of};
ghost use Rattle.model_loop.specs.Sound.{IsSound};
ghost use Rattle.model_machine.specs.Extra.{Extra, ExtraStep, Keeping, NamesNothing, MakesPlain, MakesMany, Settles, Registers, CallsSoon, CallsLater, Revokes, Cancels, Uncancels, made_by, made_by_all};
ghost use Rattle.model_machine.specs.Sound.{AreKept, Ids, no_extra_as};
ghost use Rattle.model_machine.specs.State.{start};
ghost use Rattle.law_replies.specs.Added.{KeepsSound};
ghost use Rattle.law_replies.specs.InStep.{IsRunSound};
ghost use Rattle.law_runs.specs.Allowed.{AreAllowed, MakesAllowedSteps, Owns};

/// Each step that is allowed keeps the loop sound, between two callbacks and inside a task's step;
/// and so do several, one after another.
pub fn each_step_keeps_the_loop_sound()
    ensures plain { (running : Option ℕ) (told : ℕ → List ℕ) (l : Loop) → IsSound running told l
        → IsSound running told (made_by MakesPlain l) }
    ensures many { (running : Option ℕ) (told : ℕ → List ℕ) (l : Loop) (members : List ℕ)
        → All (λ member. member < next_future l.parts) members → IsSound running told l
        → IsSound running told (made_by (MakesMany members) l) }
    ensures settles { (running : Option ℕ) (told : ℕ → List ℕ) (l : Loop) (future : ℕ)
        (outcome : Outcome) → future < next_future l.parts → owner_of l.parts future ≡ None
        → IsSound running told l
        → IsSound running told (made_by (Settles future outcome) l) }
    ensures registers { (running : Option ℕ) (told : ℕ → List ℕ) (l : Loop) (future key : ℕ)
        → IsSound running told l → IsSound running told (made_by (Registers future key) l) }
    ensures soon { (running : Option ℕ) (told : ℕ → List ℕ) (l : Loop) (key : ℕ)
        → IsSound running told l → IsSound running told (made_by (CallsSoon key) l) }
    ensures later { (running : Option ℕ) (told : ℕ → List ℕ) (l : Loop) (when key : ℕ)
        → IsSound running told l → IsSound running told (made_by (CallsLater when key) l) }
    ensures revokes { (running : Option ℕ) (told : ℕ → List ℕ) (l : Loop) (tag : ℕ)
        → entries (no_extra_as tag) l.parts ≡ 0 → IsSound running told l
        → IsSound running told (made_by (Revokes tag) l) }
    ensures cancels { (running : Option ℕ) (told : ℕ → List ℕ) (l : Loop) (key future : ℕ)
        → IsSound running told l → IsSound running told (made_by (Cancels key future) l) }
    ensures uncancels { (running : Option ℕ) (told : ℕ → List ℕ) (l : Loop) (key task : ℕ)
        → IsSound running told l → IsSound running told (made_by (Uncancels key task) l) }
    ensures several { (running : Option ℕ) (told : ℕ → List ℕ) (own : Owns) (l : Loop)
        (steps : List ExtraStep)
        → AreAllowed own steps l → IsSound running told l
        → IsSound running told (made_by_all steps l) }
{}

/// What is kept stays right through allowed steps: what was made stays, futures keep their owners,
/// and a tag names what it named.
pub fn what_is_kept_stays_right()
    ensures { (own : Owns) (ids : Ids) (keeping : Keeping) (futures : List ℕ)
        (steps : List ExtraStep) (l : Loop)
        → AreAllowed own steps l → AreKept ids keeping futures l.parts
        → AreKept ids keeping futures (made_by_all steps l).parts }
{}

/// So whatever is added keeps states sound where it makes allowed steps alone, and each state of
/// each run with it is sound.
pub fn allowed_extras_keep_states_sound<S>()
    ensures keeps { (added : Extra S) → MakesAllowedSteps added → KeepsSound added }
    ensures runs { (added : Extra S) → MakesAllowedSteps added
        → (most : ℕ) (state : S) (program : Program) (answers : List Entry) (turns : ℕ)
        → NamesNothing (added.keeps state)
        → IsRunSound added turns (start most state program answers) }
{}
