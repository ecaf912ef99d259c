//! Laws of a task's step: how it begins, and the requests that it makes. Each function has no body:
//! its clauses are the laws.
ghost use Rattle.std.specs.Prelude.{◌≡◌, ℕ, true, false, List, ◌∷◌};
ghost use Rattle.model_value.specs.Input.{Input};
ghost use Rattle.model_value.specs.Request.{Request};
ghost use Rattle.model_wire.specs.declared.event.Event.TheVariants.{Ran};
ghost use Rattle.model_loop.specs.Parts.{Handle};
ghost use Rattle.model_loop.specs.Tasks.{begin_step};
ghost use Rattle.model_loop.specs.Ways.{steps};
ghost use Rattle.model_machine.specs.Extra.{Extra};
ghost use Rattle.model_machine.specs.Replies.{decides, reply};
ghost use Rattle.model_machine.specs.State.{ResumePoint, Asked, State, generator_of, noted, stands, unbooked_in};
ghost use Rattle.model_machine.specs.Step.{given_up, step};
ghost use Rattle.law_turns.specs.Fits.{FitsStep};
ghost use Rattle.law_turns.specs.Replied.{RunsSound, HasPlainFutures, RepliesSound, IsFit, IsResumePoint};
ghost use Rattle.law_turns.specs.SoundState.{HasSoundLoop, LeavesSoundLoop};

/// A step begins by a handle that steps its task: the handle of a sleep is given up, the task waits
/// no more, and what it stands at says what the input means. A group's exit that waited may wait
/// again, which ends the step.
pub fn a_step_begins_sound<S>()
    ensures { (added : Extra S) (s : State S) (task : ℕ) (input : Input) (handle : Handle)
        (rest : List Handle)
        → s.loop.parts.pending ≡ handle ∷ rest → handle.dead ≡ false
        → steps task handle.action ≡ true → HasSoundLoop s
        → (resume_point : ResumePoint) → IsResumePoint resume_point s →
        let gone = noted (Ran handle.action) (unbooked_in (λ p. record p { pending = rest }) s) in
        let begun = begin_step task input (given_up resume_point gone.loop.parts) in
        RepliesSound task
        (decides added resume_point task begun.input
        (stands Asked task (unbooked_in (λ p. begun.parts) gone))) }
{}

/// What the table makes of a request keeps the loop sound: one that is answered leaves the step so,
/// and one that ends the step the whole. What it awaits has to be there, and a block that it leaves
/// open.
pub fn requests_keep_it_sound<S>()
    ensures { (task : ℕ) (added : Extra S) (it : Request) (s : State S) → RunsSound task s
        → HasPlainFutures s → IsFit it s
        → RepliesSound task (reply added task it s) }
{}

/// A whole step by a handle that steps its task keeps the loop sound, where each request that the
/// task makes in it is fit, and it ends with no block of a group open.
pub fn a_step_keeps_it_sound<S>()
    ensures { (limit : ℕ) (added : Extra S) (s : State S) (task : ℕ) (input : Input)
        (handle : Handle) (rest : List Handle)
        → s.loop.parts.pending ≡ handle ∷ rest → handle.dead ≡ false
        → steps task handle.action ≡ true → HasSoundLoop s
        → IsResumePoint (generator_of task s).resume_point s →
        let gone = noted (Ran handle.action) (unbooked_in (λ p. record p { pending = rest }) s) in
        FitsStep limit added task input gone → LeavesSoundLoop (step limit added task input gone) }
{}
