//! Readers.
ghost use Rattle.std.specs.Prelude.{◌≡◌, ◌+◌, ◌<◌, ◌≤◌, ◌++◌, ◌∷◌, drop, length, List, [], None, Some, ℕ};
ghost use Rattle.model_value.specs.Value.{Exc};
ghost use Rattle.model_stream.specs.Reading.{Reading, ReadOp, take_read, take_line, take_until, fail, first_at, newline, gives, removes, found_too_far, feed};
ghost use Rattle.law_stream.specs.LinesByUntil.{line_by};
ghost use Rattle.law_stream.specs.ReaderSteps.{ReaderStep, RaisesAlone, TakesFront, HoldsLine, all_after, fed, gone, let_go, feed_all, joined};

/// An operation takes a front of what is held, perhaps none of it, and the bytes that it gives are
/// that front.
pub fn takes_are_fronts()
    ensures { (op : ReadOp) (r : Reading) → TakesFront (take_read op r) r.held }
{}

/// What was held and what was fed since is what was taken, then what was let go as the reader failed,
/// and then what is held now: a reader gives what it was fed, in order, once. One that didn't fail let
/// nothing go, and from one that failed nothing is taken.
pub fn readers_keep_order()
    ensures order { (steps : List ReaderStep) (r : Reading) → r.held ++ fed steps
        ≡ gone steps r ++ (let_go steps r ++ (all_after steps r).held) }
    ensures kept { (steps : List ReaderStep) (r : Reading) → (all_after steps r).failed ≡ None
        → let_go steps r ≡ [] }
    ensures failed { (steps : List ReaderStep) (r : Reading) (fault : Exc) → r.failed ≡ Some fault
        → gone steps r ≡ [] }
{}

/// A reader that fails holds nothing, and each operation on one that failed raises and leaves it as it
/// is.
pub fn a_failed_reader_gives_nothing()
    ensures lets_go { (fault : Exc) (r : Reading) → (fail fault r).held ≡ [] }
    ensures raises { (op : ReadOp) (r : Reading) (fault : Exc) → r.failed ≡ Some fault
        → RaisesAlone (take_read op r) r }
{}

/// A reader that was fed pieces is as one that was fed them at once. So no cut of the input changes
/// what an operation answers.
pub fn cuts_do_not_matter()
    ensures two { (piece other : List ℕ) (r : Reading) → feed other (feed piece r)
        ≡ feed (piece ++ other) r }
    ensures all { (pieces : List (List ℕ)) (piece : List ℕ) (r : Reading)
        → feed_all (piece ∷ pieces) r ≡ feed (piece ++ joined pieces) r }
{}

/// A line whose newline stands at the limit is given, however high the limit is; one that is longer
/// is removed.
pub fn lines_fit_up_to_the_limit()
    ensures fits { (text rest : List ℕ) (r : Reading) → HoldsLine text rest r
        → length text ≤ r.limit
        → take_line r ≡ gives (length text + 1) r.held }
    ensures is_too_long { (text rest : List ℕ) (r : Reading) → HoldsLine text rest r
        → r.limit < length text
        → take_line r ≡ removes found_too_far (drop (length text + 1) r.held) }
{}

/// A line is read until its newline, and two exceptions turn: what came before the end is given, and
/// a line that is too long is removed. A reader that failed raises its exception either way.
pub fn lines_are_read_until_newlines()
    ensures turns { (r : Reading) → r.failed ≡ None
        → take_line r ≡ line_by (first_at newline r.held) r (take_until newline r) }
    ensures fails { (r : Reading) (fault : Exc) → r.failed ≡ Some fault
        → take_line r ≡ take_until newline r }
{}
