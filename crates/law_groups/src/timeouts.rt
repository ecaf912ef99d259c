//! Laws of timeouts. Each function has no body: its clauses are the laws.
ghost use Rattle.std.specs.Prelude.{◌≡◌, ℕ, ◌≤◌, ◌<◌, length, ℤ, false, List, ◌∷◌, Option, None};
ghost use Rattle.model_value.specs.declared.action.Action.TheVariants.{Fires};
ghost use Rattle.model_value.specs.Value.{Exc};
ghost use Rattle.model_loop.specs.Parts.{Handle};
ghost use Rattle.model_loop.specs.Loop.{Loop, in_parts};
ghost use Rattle.model_loop.specs.Timeouts.{enter_timeout, reschedule, fire, exit_timeout, is_active, timeout_of};
ghost use Rattle.model_loop.specs.Ways.{one_if};
ghost use Rattle.model_loop.specs.Entries.{entries};
ghost use Rattle.model_loop.specs.Deadlines.{fires_any};
ghost use Rattle.model_loop.specs.Sound.{ArePartsSound};
ghost use Rattle.law_steps.specs.Frames.{taken};
ghost use Rattle.law_groups.specs.Tags.{HaveTags};

/// An active timeout has one handle at most, and any other has none.
pub fn a_timeout_has_one_handle_at_most()
    ensures { (id : ℕ) (l : Loop) → HaveTags l
        → entries (fires_any id) l.parts ≤ one_if (is_active (timeout_of l id).state) }
{}

/// Each timeout goes on having its tag, where one is entered, gets another deadline, fires, or its
/// block is left.
pub fn timeouts_keep_tags()
    ensures enter { (task : ℕ) (delay : Option ℤ) (l : Loop) → HaveTags l
        → HaveTags (enter_timeout task delay l) }
    ensures reschedule { (id : ℕ) (when : Option ℤ) (l : Loop) → HaveTags l
        → HaveTags (reschedule id when l) }
    ensures fire { (id : ℕ) (handle : Handle) (rest : List Handle) (l : Loop)
        → l.parts.pending ≡ handle ∷ rest → handle.dead ≡ false → handle.action ≡ Fires id
        → ArePartsSound None None (taken rest l.parts) → HaveTags l
        → HaveTags (fire id (in_parts (taken rest) l)) }
    ensures exit { (raised : Option Exc) (id : ℕ) (l : Loop)
        → id < length l.timeouts → HaveTags l → HaveTags (exit_timeout raised id l).loop }
{}
