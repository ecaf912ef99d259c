//! Laws of sound states. Each function has no body: its clauses are the laws.
ghost use Rattle.std.specs.Prelude.{◌≡◌, ℕ, true, false, None};
ghost use Rattle.model_says.specs.Says.{step_limit};
ghost use Rattle.model_loop.specs.Tasks.{lives};
ghost use Rattle.model_machine.specs.Extra.{Extra};
ghost use Rattle.model_machine.specs.Sound.{IsStateSound, ids_of, names_made};
ghost use Rattle.model_machine.specs.State.{State};
ghost use Rattle.model_machine.specs.Step.{says_of};
ghost use Rattle.law_says.specs.Given.{InSaying, IsIn};
ghost use Rattle.law_turns.specs.SoundState.{HasSoundLoop};
ghost use Rattle.law_turns.specs.After.{IsLoopAfter};
ghost use Rattle.law_replies.specs.InStep.{SameTapes};

/// A step of the loop that no coroutine hears, and that enters and leaves no block, keeps a sound
/// state sound.
pub fn what_resumes_nobody_keeps_it_sound<S>()
    ensures { (added : Extra S) (s : State S) → IsStateSound added s
        → (t : State S) → SameTapes s t → t.futures ≡ s.futures
        → (t.main_done ≡ true → lives t.loop.parts 0 ≡ false)
        → IsLoopAfter (names_made (ids_of s)) false None None None None s.loop t.loop
        → HasSoundLoop t → IsStateSound added t }
{}

/// Whatever a coroutine awaits, keeps, gives to another or returns names what was made.
pub fn coroutines_hand_on_what_was_made<S>()
    ensures { (added : Extra S) (s : State S) → IsStateSound added s
        → (task : ℕ)
        → InSaying (IsIn (names_made (ids_of s))) (says_of step_limit added task s) }
{}
