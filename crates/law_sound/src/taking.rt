//! What is appended and taken out between two callbacks keeps a state sound. Each function has no
//! body: its clauses are the laws.
ghost use Rattle.std.specs.Prelude.{◌≡◌, ℕ, true, false, List, ◌∷◌, Option, None};
ghost use Rattle.model_value.specs.declared.action.Action.TheVariants.{SleepDone, MainDone};
ghost use Rattle.model_value.specs.Value.{Outcome};
ghost use Rattle.model_loop.specs.Parts.{Handle};
ghost use Rattle.model_loop.specs.Loop.{Loop, in_parts};
ghost use Rattle.model_loop.specs.Handles.{later, revoke, due};
ghost use Rattle.model_loop.specs.Futures.{settle};
ghost use Rattle.model_loop.specs.Owning.{is_plain};
ghost use Rattle.model_loop.specs.Entries.{entries, no_sleep_as};
ghost use Rattle.model_loop.specs.Sound.{IsSound};
ghost use Rattle.law_steps.specs.Frames.{taken};

/// Timers fall due.
pub fn timers_fall_due()
    ensures { (running : Option ℕ) (told : ℕ → List ℕ) (l : Loop)
        → IsSound running told l → IsSound running told (in_parts due l) }
{}

/// A handle is taken out that is dead, or that notes that main is done.
pub fn a_handle_does_nothing()
    ensures dead { (told : ℕ → List ℕ) (handle : Handle) (rest : List Handle) (l : Loop)
        → l.parts.pending ≡ handle ∷ rest → handle.dead ≡ true
        → IsSound None told l → IsSound None told (in_parts (taken rest) l) }
    ensures main_done { (told : ℕ → List ℕ) (handle : Handle) (rest : List Handle) (l : Loop)
        → l.parts.pending ≡ handle ∷ rest → handle.action ≡ MainDone
        → IsSound None told l → IsSound None told (in_parts (taken rest) l) }
{}

/// A sleep is scheduled on a plain future, ends, and is given up by a tag that nothing else has.
pub fn a_sleep_passes()
    ensures later { (running : Option ℕ) (told : ℕ → List ℕ) (when task future : ℕ) (l : Loop)
        → is_plain l.parts future ≡ true
        → IsSound running told l
        → IsSound running told (in_parts (later when (SleepDone task future)) l) }
    ensures done { (told : ℕ → List ℕ) (task future : ℕ) (outcome : Outcome) (handle : Handle)
        (rest : List Handle) (l : Loop)
        → l.parts.pending ≡ handle ∷ rest → handle.dead ≡ false
        → handle.action ≡ SleepDone task future
        → IsSound None told l
        → IsSound None told (in_parts (settle future outcome) (in_parts (taken rest) l)) }
    ensures revoke { (running : Option ℕ) (told : ℕ → List ℕ) (tag : ℕ) (l : Loop)
        → entries (no_sleep_as tag) l.parts ≡ 0
        → IsSound running told l → IsSound running told (in_parts (revoke tag) l) }
{}
