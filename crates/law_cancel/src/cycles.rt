//! Laws of waiting in a cycle. Each function has no body: its clauses are the laws.
ghost use Rattle.std.specs.Prelude.{◌≡◌, ◌↔◌, ℕ, true};
ghost use Rattle.model_loop.specs.Parts.{Parts};
ghost use Rattle.model_loop.specs.Cancel.{cancel};
ghost use Rattle.model_loop.specs.Cycles.{Leads, leads};
ghost use Rattle.model_loop.specs.Suspend.{suspend};
ghost use Rattle.model_loop.specs.Owning.{OwnsFutures};
ghost use Rattle.model_loop.specs.Sound.{HasNoCycle};

/// The test tells exactly whether one future leads to another: as many passes as there are futures
/// are enough.
pub fn test_decides()
    ensures { (p : Parts) (from to : ℕ) → (leads p from to ≡ true) ↔ Leads p from to }
{}

/// No await makes a cycle, since those that would are refused; and no cancel does.
pub fn none_is_made()
    ensures suspend { (task on : ℕ) (p : Parts)
        → OwnsFutures p → HasNoCycle p → HasNoCycle (suspend task on p).parts }
    ensures cancel { (id : ℕ) (p : Parts) → HasNoCycle p → HasNoCycle (cancel id p).parts }
{}
