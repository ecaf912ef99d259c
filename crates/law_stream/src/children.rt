//! Children.
ghost use Rattle.std.specs.Prelude.{◌≡◌, ℕ, true, List, [], Some};
ghost use Rattle.model_stream.specs.Children.{Child};
ghost use Rattle.model_stream.specs.Watching.{watched_child};
ghost use Rattle.law_stream.specs.SoundSenders.{IsSoundSender};
ghost use Rattle.law_stream.specs.Ways.{Always, Move};
ghost use Rattle.law_stream.specs.ChildEnds.{is_over};
ghost use Rattle.law_stream.specs.ChildSteps.{ChildComes, ChildStep, KeepsChild, May, done, ran_in, written_in};

/// Whatever a child does keeps its standard input so, whichever answers come, and so does any row of
/// that: what was handed on is a front of what was written, in order, and what is unsent is the rest,
/// unless a loss dropped it.
pub fn children_keep_order()
    ensures one { (id : ℕ) (step : ChildStep) (p : Child) → IsSoundSender p.stdin → May step p
        → Always (KeepsChild id (ran_in step) (written_in step p) p) (done id step p) }
    ensures row { (id : ℕ) (p : Child) (ran : ℕ) (written : List ℕ) (moves : List Move)
        (after : Child) → IsSoundSender p.stdin → ChildComes id p ran written moves after
        → KeepsChild id ran written p moves after }
{}

/// A child that is over stays so, whatever comes, and a select waits for nothing of it any more.
pub fn children_over_stay_over()
    ensures one { (id : ℕ) (step : ChildStep) (p : Child) → IsSoundSender p.stdin → May step p
        → is_over p ≡ true → Always (λ moves after. is_over after ≡ true) (done id step p) }
    ensures row { (id : ℕ) (p : Child) (ran : ℕ) (written : List ℕ) (moves : List Move)
        (after : Child) → IsSoundSender p.stdin → ChildComes id p ran written moves after
        → is_over p ≡ true → is_over after ≡ true }
    ensures unwatched { (id : ℕ) (p : Child) → IsSoundSender p.stdin → is_over p ≡ true
        → watched_child id (Some p) ≡ [] }
{}
