//! Callbacks that step no task, tell no group and wait for no time keep a state sound. Each function
//! has no body: its clauses are the laws.
ghost use Rattle.std.specs.Prelude.{◌≡◌, ℕ, true, false, List, ◌∷◌, Option, None};
ghost use Rattle.model_value.specs.Action.{Action};
ghost use Rattle.model_value.specs.declared.action.Action.TheVariants.{HandlerDone};
ghost use Rattle.model_loop.specs.Parts.{Handle};
ghost use Rattle.model_loop.specs.Loop.{Loop, in_parts};
ghost use Rattle.model_loop.specs.Futures.{register};
ghost use Rattle.model_loop.specs.Handles.{soon};
ghost use Rattle.model_loop.specs.Owning.{is_callback};
ghost use Rattle.model_loop.specs.Sound.{IsSound};
ghost use Rattle.law_steps.specs.Frames.{is_followed, taken};
ghost use Rattle.law_groups.specs.Tags.{is_deadline};

/// One is called soon, waits for a future or is called soon where that is done, and its handle is
/// taken out.
pub fn what_steps_nothing_comes_and_goes()
    ensures soon { (action : Action) → is_followed action ≡ false → is_deadline action ≡ false
        → (running : Option ℕ) (told : ℕ → List ℕ) (l : Loop)
        → IsSound running told l → IsSound running told (in_parts (soon action) l) }
    ensures registered { (action : Action) → is_followed action ≡ false
        → is_deadline action ≡ false → is_callback action ≡ true
        → (running : Option ℕ) (told : ℕ → List ℕ) (future : ℕ) (l : Loop)
        → IsSound running told l → IsSound running told (in_parts (register future action) l) }
    ensures taken { (told : ℕ → List ℕ) (handle : Handle) (rest : List Handle) (l : Loop)
        → is_followed handle.action ≡ false → is_deadline handle.action ≡ false
        → l.parts.pending ≡ handle ∷ rest
        → IsSound None told l → IsSound None told (in_parts (taken rest) l) }
{}

/// So does what is called when the task is done that handles an accepted connection.
pub fn a_handler_is_waited_for()
    ensures registered { (running : Option ℕ) (told : ℕ → List ℕ) (future conn task : ℕ) (l : Loop)
        → IsSound running told l
        → IsSound running told (in_parts (register future (HandlerDone conn task)) l) }
    ensures taken { (told : ℕ → List ℕ) (conn task : ℕ) (handle : Handle) (rest : List Handle)
        (l : Loop)
        → l.parts.pending ≡ handle ∷ rest → handle.action ≡ HandlerDone conn task
        → IsSound None told l → IsSound None told (in_parts (taken rest) l) }
{}
