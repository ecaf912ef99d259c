//! Laws of requests and outcomes. Each function has no body: its clauses are the laws.
ghost use Rattle.std.specs.Prelude.{ℕ, Option};
ghost use Rattle.model_value.specs.Value.{Outcome};
ghost use Rattle.model_loop.specs.Parts.{Parts};
ghost use Rattle.model_loop.specs.Futures.{settle};
ghost use Rattle.model_loop.specs.Cancel.{cancel};
ghost use Rattle.model_loop.specs.Sound.{ArePartsSound};
ghost use Rattle.law_steps.specs.Frames.{IsNoTask, Covers};

/// A future that is no task's gets its outcome, in a step or between two.
pub fn an_outcome_keeps_parts_sound()
    ensures { (running excused : Option ℕ) (id : ℕ) (outcome : Outcome) (p : Parts) → IsNoTask p id
        → ArePartsSound running excused p → ArePartsSound running excused (settle id outcome p) }
{}

/// A request to cancel a future keeps tasks and futures sound, whoever makes it.
pub fn a_request_keeps_parts_sound()
    ensures { (running excused : Option ℕ) → Covers running excused → (id : ℕ) (p : Parts)
        → ArePartsSound running excused p → ArePartsSound running excused (cancel id p).parts }
{}
