//! Laws of what is scheduled. Each function has no body: its clauses are the laws.
ghost use Rattle.std.specs.Prelude.{◌≡◌, ℕ, Option};
ghost use Rattle.model_loop.specs.Parts.{Parts};
ghost use Rattle.model_loop.specs.Handles.{revoke, due};
ghost use Rattle.model_loop.specs.Entries.{entries, no_sleep_as, AreTimed};
ghost use Rattle.model_loop.specs.Sound.{ArePartsSound};

/// Timers fall due, and the handle of a sleep is given up: tasks and futures stay sound.
pub fn timers_keep_parts_sound()
    ensures due { (running excused : Option ℕ) (p : Parts)
        → AreTimed p → ArePartsSound running excused p → ArePartsSound running excused (due p) }
    ensures revoke { (running excused : Option ℕ) (tag : ℕ) (p : Parts)
        → entries (no_sleep_as tag) p ≡ 0
        → ArePartsSound running excused p → ArePartsSound running excused (revoke tag p) }
{}
