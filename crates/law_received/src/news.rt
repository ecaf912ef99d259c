//! News of children. Each function has no body: its clauses are the law.
ghost use Rattle.std.specs.Prelude.{◌≡◌, ◌≤◌, ℕ, suc, Bool, true, List, ◌∷◌, Option, length};
ghost use Rattle.model_wire.specs.Call.{Answer};
ghost use Rattle.model_wire.specs.Fits.{fits};
ghost use Rattle.model_loop.specs.Parts.{Handle, Parts};
ghost use Rattle.model_stream.specs.Requests.{StreamReader};
ghost use Rattle.model_stream.specs.Streams.{Streams};
ghost use Rattle.model_machine.specs.Outside.{news_of, select, watched};
ghost use Rattle.model_machine.specs.Turn.{woken_by};
ghost use Rattle.law_changes.specs.Changes.{PartsChange, made_of_parts};
ghost use Rattle.law_stream.specs.Ways.{Move, one_if};
ghost use Rattle.law_walk.specs.Walks.{MayOfParts, made_on};
ghost use Rattle.law_received.specs.Calm.{ScheduleNone};
ghost use Rattle.law_received.specs.Readers.{is_news_to, may_hear};
ghost use Rattle.law_received.specs.Waiting.{Follows, IsDue, told_count};

/// The answer to a select tells each pipe at most one piece of news, and only one that takes more.
/// So what waits as a turn begins is due.
pub fn a_select_tells_each_pipe_once()
    ensures tells { (s : Streams) (time : Option ℕ) (extra : Bool) (came : Answer)
        → fits (select time (watched s extra)) came ≡ true → (from : StreamReader)
        → told_count from (news_of came) ≤ one_if (may_hear from s) }
    ensures wakes { (s : Streams) (p : Parts) (time : Option ℕ) (extra : Bool) (came : Answer)
        → fits (select time (watched s extra)) came ≡ true → IsDue 0 0 s p
        → IsDue (woken_by came p).next_stamp (length (woken_by came p).pending) s
        (woken_by came p) }
{}

/// Nothing else tells any: what the loop does of itself, and what moves that schedule no news do,
/// appends handles without news.
pub fn nothing_else_tells()
    ensures loops { (change : PartsChange) (p : Parts) → MayOfParts change p
        → Follows p (made_of_parts change p) }
    ensures moves { (moves : List Move) (p : Parts) → ScheduleNone moves
        → Follows p (made_on moves p) }
    ensures stays { (bar left : ℕ) (s : Streams) (p q : Parts) → Follows p q
        → IsDue bar left s p → IsDue bar left s q }
{}

/// Where the first handle has news of a pipe, it takes more.
pub fn what_waits_is_heard()
    ensures { (bar left : ℕ) (s : Streams) (p : Parts) (handle : Handle) (rest : List Handle)
        (from : StreamReader) → p.pending ≡ handle ∷ rest → IsDue bar (suc left) s p
        → is_news_to from handle.action ≡ true → may_hear from s ≡ true }
{}
