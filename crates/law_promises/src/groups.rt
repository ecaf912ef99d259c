//! What a sound state says of groups, in both profiles where none is named. Each function has no
//! body: its clauses are the laws.
ghost use Rattle.std.specs.Prelude.{◌≡◌, ℕ, ◌≤◌, true, false, ◌&&◌, List, [], ◌++◌, Option, None};
ghost use Rattle.std.specs.List.{count_by};
ghost use Rattle.model_value.specs.declared.kind.Kind.TheVariants.{ExceptionGroup};
ghost use Rattle.model_value.specs.Value.{Exc, exc, excs};
ghost use Rattle.model_loop.specs.Balance.{asked_before_exit, asks, is_by_group, takes};
ghost use Rattle.model_loop.specs.Loop.{Loop};
ghost use Rattle.model_loop.specs.Parts.{One, Two};
ghost use Rattle.model_loop.specs.Tasks.{future_of, lives};
ghost use Rattle.model_loop.specs.Groups.{group_of, body_failure, end_exit, exception_group, group_text, is_bearable, raised_of};
ghost use Rattle.model_loop.specs.Numbered.{occurrences};
ghost use Rattle.model_loop.specs.Totals.{callbacks_of};
ghost use Rattle.model_loop.specs.Ways.{one_if};
ghost use Rattle.model_loop.specs.Children.{failures, tells};
ghost use Rattle.model_loop.specs.Sound.{IsSound};

/// Once its exit has ended all tasks that were made in it are done, it was told of each of them
/// once, and its errors are the failures of those that failed, in the order in which it was told,
/// and last the body's.
pub fn a_group_ends_after_its_children()
    ensures done { (running : Option ℕ) (told : ℕ → List ℕ) (l : Loop) → IsSound running told l
        → (id : ℕ)
        → (group_of l id).ended ≡ true → (task : ℕ) → 1 ≤ occurrences task (group_of l id).made
        → lives l.parts task ≡ false }
    ensures told { (running : Option ℕ) (told : ℕ → List ℕ) (l : Loop) → IsSound running told l
        → (id : ℕ)
        → (group_of l id).ended ≡ true → (task : ℕ)
        → occurrences task (told id) ≡ occurrences task (group_of l id).made }
    ensures errors { (running : Option ℕ) (told : ℕ → List ℕ) (l : Loop) → IsSound running told l
        → (id : ℕ)
        → (group_of l id).ended ≡ true
        → (group_of l id).errors ≡ failures l.parts (told id) ++ body_failure (group_of l id).body }
{}

/// Before that its errors are the failures of those that it was told of, each once, and it will be
/// told once of each child that lives.
pub fn a_group_is_told_once()
    ensures once { (running : Option ℕ) (told : ℕ → List ℕ) (l : Loop) → IsSound running told l
        → (id task : ℕ)
        → occurrences task (told id) ≤ 1 }
    ensures errors { (running : Option ℕ) (told : ℕ → List ℕ) (l : Loop) → IsSound running told l
        → (id : ℕ)
        → (group_of l id).ended ≡ false → (group_of l id).errors ≡ failures l.parts (told id) }
    ensures child { (running : Option ℕ) (told : ℕ → List ℕ) (l : Loop) → IsSound running told l
        → (id task : ℕ)
        → lives l.parts task ≡ true → 1 ≤ occurrences task (group_of l id).children
        → count_by (tells id task) (callbacks_of l.parts (future_of l.parts task)) ≡ 1 }
{}

/// An exit that ends where something failed raises the errors and the body's failure as one group,
/// whose members they are, unless it would be too deep or too heavy.
pub fn an_exit_raises_its_errors()
    ensures answer { (errors : List Exc) (id : ℕ) (l : Loop) (kept : Option Exc)
        → (errors ≡ [] → kept ≡ None)
        → (end_exit kept errors id l).answer ≡ raised_of
        (errors ++ body_failure (group_of l id).body) }
    ensures members { (errors : List Exc)
        → is_bearable (exc ExceptionGroup group_text [] (excs errors)) ≡ true
        → exception_group errors ≡ exc ExceptionGroup group_text [] (excs errors) }
{}

/// A group asks for its parent's cancel once where its request is set, and otherwise never. In
/// profile 1 it takes that back once where it asked before its exit began; in profile 2 once where
/// it asked and its exit has ended; otherwise never.
pub fn a_group_takes_its_request_back()
    ensures asks { (running : Option ℕ) (told : ℕ → List ℕ) (l : Loop) → IsSound running told l
        → (id : ℕ)
        → count_by (asks (is_by_group id)) l.ledger ≡ one_if (group_of l id).requested }
    ensures profile_one { (running : Option ℕ) (told : ℕ → List ℕ) (l : Loop)
        → IsSound running told l → l.profile ≡ One → (id : ℕ)
        → count_by (takes (is_by_group id)) l.ledger ≡ one_if (asked_before_exit id l.ledger) }
    ensures profile_two { (running : Option ℕ) (told : ℕ → List ℕ) (l : Loop)
        → IsSound running told l → l.profile ≡ Two → (id : ℕ)
        → count_by (takes (is_by_group id)) l.ledger
        ≡ one_if ((group_of l id).ended && (group_of l id).requested) }
{}
