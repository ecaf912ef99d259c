//! Laws of a task's step in a sound state: how it begins, each request, and the end of the task.
//! Each function has no body: its clauses are the laws.
ghost use Rattle.std.specs.Prelude.{◌≡◌, ℕ, true, false, List, ◌∷◌, Ok, Err};
ghost use Rattle.model_value.specs.Input.{Input};
ghost use Rattle.model_value.specs.Request.{Request};
ghost use Rattle.model_value.specs.Value.{Value, Exc};
ghost use Rattle.model_says.specs.Endings.{Asks, Returns, Raises};
ghost use Rattle.model_says.specs.Says.{step_limit};
ghost use Rattle.model_wire.specs.declared.event.Event.TheVariants.{Ran};
ghost use Rattle.model_loop.specs.Parts.{Handle};
ghost use Rattle.model_loop.specs.Tasks.{begin_step, finish, lives};
ghost use Rattle.model_loop.specs.Ways.{steps};
ghost use Rattle.model_machine.specs.Extra.{Extra};
ghost use Rattle.model_machine.specs.Outcomes.{woken_with};
ghost use Rattle.model_machine.specs.Replies.{decides};
ghost use Rattle.model_machine.specs.Sound.{IsStateSound, ids_of, sends_made};
ghost use Rattle.model_machine.specs.State.{Asked, Serving, State, generator_of, noted, stands, unbooked_in};
ghost use Rattle.model_machine.specs.Step.{given_up, says_of, serve, step};
ghost use Rattle.law_turns.specs.Fits.{HasNoOpenGroup};
ghost use Rattle.law_turns.specs.Replied.{IsResumePoint};
ghost use Rattle.law_replies.specs.Added.{KeepsSound};
ghost use Rattle.law_replies.specs.InStep.{IsAsked, IsStepSound, LeavesStateSound, RepliesInStep};

/// A step begins by a handle that steps its task, with an input that names what was made.
/// The task lives, and stands as the loop needs it; the coroutine asks what it asked before; and
/// what the input means is sound.
pub fn a_step_begins_sound<S>()
    ensures lives { (added : Extra S) (s : State S) (task : ℕ) (handle : Handle)
        (rest : List Handle)
        → s.loop.parts.pending ≡ handle ∷ rest → handle.dead ≡ false
        → steps task handle.action ≡ true → IsStateSound added s
        → lives s.loop.parts task ≡ true }
    ensures resume_point { (added : Extra S) (s : State S) (task : ℕ) (handle : Handle)
        (rest : List Handle)
        → s.loop.parts.pending ≡ handle ∷ rest → handle.dead ≡ false
        → steps task handle.action ≡ true → IsStateSound added s
        → ((key : ℕ) → (generator_of task s).resume_point ≡ Serving key → ⊥)
        → IsResumePoint (generator_of task s).resume_point s }
    ensures asked { (added : Extra S) (s : State S) (task : ℕ) (input : Input) (handle : Handle)
        (rest : List Handle)
        → s.loop.parts.pending ≡ handle ∷ rest → handle.dead ≡ false
        → steps task handle.action ≡ true → IsStateSound added s
        → (asked : Request) → says_of step_limit added task s ≡ Asks asked →
        let gone = noted (Ran handle.action) (unbooked_in (λ p. record p { pending = rest }) s) in
        let resume_point = (generator_of task s).resume_point in
        let begun = begin_step task input (given_up resume_point gone.loop.parts) in
        IsAsked added task resume_point asked (stands Asked task (unbooked_in
        (λ p. begun.parts) gone)) }
    ensures answered { (added : Extra S) → KeepsSound added
        → (s : State S) (task : ℕ) (input : Input) (handle : Handle) (rest : List Handle)
        → s.loop.parts.pending ≡ handle ∷ rest → handle.dead ≡ false
        → steps task handle.action ≡ true → IsStateSound added s
        → sends_made (ids_of s) input ≡ true →
        let gone = noted (Ran handle.action) (unbooked_in (λ p. record p { pending = rest }) s) in
        let resume_point = (generator_of task s).resume_point in
        let begun = begin_step task input (given_up resume_point gone.loop.parts) in
        RepliesInStep added true task
        (decides added resume_point task begun.input (stands Asked task (unbooked_in
        (λ p. begun.parts) gone))) }
    ensures woken { (added : Extra S) (s : State S) (task : ℕ) → IsStateSound added s
        → sends_made (ids_of s) (woken_with s.loop.parts task) ≡ true }
{}

/// A task that returns or raises is the parent of no group whose block is open, and its end leaves
/// a sound state.
pub fn a_task_ends_sound<S>()
    ensures returned { (added : Extra S) (task : ℕ) (s : State S) → IsStepSound added task s
        → (value : Value) → says_of step_limit added task s ≡ Returns value
        → HasNoOpenGroup task s × IsStateSound added (unbooked_in (finish task (Ok value)) s) }
    ensures raised { (added : Extra S) (task : ℕ) (s : State S) → IsStepSound added task s
        → (fault : Exc) → says_of step_limit added task s ≡ Raises fault
        → HasNoOpenGroup task s × IsStateSound added (unbooked_in (finish task (Err fault)) s) }
{}

/// So a whole step leaves a sound state, and so does the rest of one.
pub fn a_step_keeps_it_sound<S>()
    ensures whole { (added : Extra S) → KeepsSound added
        → (s : State S) (task : ℕ) (input : Input) (handle : Handle) (rest : List Handle)
        → s.loop.parts.pending ≡ handle ∷ rest → handle.dead ≡ false
        → steps task handle.action ≡ true → IsStateSound added s
        → sends_made (ids_of s) input ≡ true
        → LeavesStateSound added (step step_limit added task input
        (noted (Ran handle.action) (unbooked_in (λ p. record p { pending = rest }) s))) }
    ensures rest { (added : Extra S) → KeepsSound added
        → (task answers : ℕ) (s : State S) → IsStepSound added task s
        → LeavesStateSound added (serve step_limit added answers task s) }
{}
