//! Laws of what is made. Each function has no body: its clauses are the laws.
ghost use Rattle.std.specs.Prelude.{◌≡◌, ℕ, None, Option};
ghost use Rattle.model_loop.specs.Parts.{FutureKind, Parts};
ghost use Rattle.model_loop.specs.Futures.{make_future};
ghost use Rattle.model_loop.specs.Tasks.{spawn};
ghost use Rattle.model_loop.specs.Owning.{owner_in};
ghost use Rattle.model_loop.specs.Sound.{ArePartsSound};

/// A task is made.
pub fn a_new_task_keeps_parts_sound()
    ensures { (running excused : Option ℕ) (p : Parts)
        → ArePartsSound running excused p → ArePartsSound running excused (spawn p) }
{}

/// A future is made that is no task's.
pub fn a_new_future_keeps_parts_sound()
    ensures { (kind : FutureKind) → owner_in kind ≡ None → (running excused : Option ℕ) (p : Parts)
        → ArePartsSound running excused p → ArePartsSound running excused (make_future kind p) }
{}
