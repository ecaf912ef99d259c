//! The steps of what is added, in code and in the machine: calls on the loop's parts come to what the steps make of the loop. There
//! is no code.
#![tactic(auto)]

ghost use Rattle.std.specs.Prelude.{◌≡◌, List};
ghost use Rattle.model_loop.specs.Loop.{Loop};
ghost use Rattle.model_loop.specs.Parts.{profile_named};
ghost use Rattle.model_machine.specs.Extra.{ExtraStep, made_by_all};
ghost use Rattle.aio_task.specs.Keeps.{Keeps, NameMap};
ghost use Rattle.aio_task.specs.View.{View};
ghost use Rattle.law_runs.specs.Allowed.{AreAllowed, Owns};
ghost use Rattle.refine_added.specs.Seen.{AreOlder, Goes, SeesAll};

/// Calls of these steps, one after another, come to the loop's parts after them, where both run by the same profile.
pub fn steps_are_kept()
    ensures { (t : NameMap) (v w : View) (own : Owns) (l : Loop)
        (steps : List ExtraStep) → Keeps t v l.parts
        → l.profile ≡ profile_named v.profile → AreAllowed own steps l → AreOlder l.parts.next_tag steps → SeesAll t.known steps v w
        → Goes t l.parts v w (made_by_all steps l).parts }
{}
