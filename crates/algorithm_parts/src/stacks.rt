//! How deep the stack of a request grows. The function has no body: its clauses are the law.
ghost use Rattle.std.specs.Prelude.{◌≡◌, ℕ, ◌+◌, ◌∷◌, List, length, map};
ghost use Rattle.model_loop.specs.Parts.{Parts};
ghost use Rattle.model_loop.specs.Cycles.{PassesTo};
ghost use Rattle.model_loop.specs.Sound.{HasNoCycle};
ghost use Rattle.algorithm_parts.specs.Open.{OpenDown, AllLead, others, is_inner, room_of, id_of};
ghost use Rattle.algorithm_parts.specs.declared.walk.WalkFrame.{WalkFrame};

/// Where nothing waits in a cycle, no more futures are open than are pending and are tasks' own or
/// stand for several; and what is open leads on to each future that is passed to.
pub fn stays_shallow()
    ensures count { (p : Parts) (frames : List WalkFrame) → HasNoCycle p → OpenDown p frames
        → length frames + others (is_inner p) (length p.futures) (map id_of frames) ≡ room_of p }
    ensures onward { (p : Parts) (ids : List ℕ) (id next : ℕ)
        → AllLead p ids id → PassesTo p id next → AllLead p (id ∷ ids) next }
{}
