//! The steps of a timeout keep a state sound. Each function has no body: its clauses are the laws.
ghost use Rattle.std.specs.Prelude.{◌≡◌, ℕ, ◌<◌, length, ℤ, true, false, List, ◌∷◌, Option, None};
ghost use Rattle.model_value.specs.declared.action.Action.TheVariants.{Fires};
ghost use Rattle.model_value.specs.Value.{Exc};
ghost use Rattle.model_loop.specs.Parts.{Handle};
ghost use Rattle.model_loop.specs.Loop.{Loop, in_parts};
ghost use Rattle.model_loop.specs.Timeouts.{timeout_of, enter_timeout, reschedule, fire, exit_timeout};
ghost use Rattle.model_loop.specs.Sound.{IsSound};
ghost use Rattle.law_steps.specs.Frames.{taken};
ghost use Rattle.law_changes.specs.Telling.{is_open};

/// Its block is entered, gets another deadline, and is left.
pub fn a_timeout_is_entered_and_left()
    ensures enter { (running : Option ℕ) (told : ℕ → List ℕ) (task : ℕ) (delay : Option ℤ)
        (l : Loop)
        → IsSound running told l → IsSound running told (enter_timeout task delay l) }
    ensures reschedule { (running : Option ℕ) (told : ℕ → List ℕ) (id : ℕ) (when : Option ℤ)
        (l : Loop)
        → IsSound running told l → IsSound running told (reschedule id when l) }
    ensures exit { (running : Option ℕ) (told : ℕ → List ℕ) (raised : Option Exc) (id : ℕ)
        (l : Loop)
        → id < length l.timeouts → is_open (timeout_of l id).state ≡ true
        → IsSound running told l → IsSound running told (exit_timeout raised id l).loop }
{}

/// Its time is over, by the handle that is taken out.
pub fn a_timeout_fires()
    ensures { (told : ℕ → List ℕ) (id : ℕ) (handle : Handle) (rest : List Handle) (l : Loop)
        → l.parts.pending ≡ handle ∷ rest → handle.dead ≡ false → handle.action ≡ Fires id
        → IsSound None told l → IsSound None told (fire id (in_parts (taken rest) l)) }
{}
