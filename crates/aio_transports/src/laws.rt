//! Laws of calls in code, by what they do of a tree. Each function has no body: its clauses are the
//! laws.
ghost use Rattle.std.specs.Prelude.{◌≡◌, true, Ok};
ghost use Rattle.model_stream.specs.Doing.{Change, Doing};
ghost use Rattle.model_stream.specs.Streams.{Opened, Streams};
ghost use Rattle.aio_exchange.specs.Follows.{Follows, Reach};
ghost use Rattle.aio_exchange.specs.Tells.{Tells};
ghost use Rattle.law_over.specs.Gone.{StaysGone, StaysGoneWith, is_gone};
ghost use Rattle.law_over.specs.Grown.{Grown, Grows, GrowsWith};

use aio_wire::Wire;

/// A call that does what such a tree says leaves what is gone as it is: one that may ask, and one
/// that asks nothing.
pub fn calls_leave_gone<V, W: Wire, R>()
    ensures follows { (change : Change → V → V) (tree : Streams → Doing Streams)
        (old new : Reach V W) (one : Opened) (s after : Streams) → StaysGone tree
        → Follows W.outside change (tree s) old new (Ok after)
        → is_gone one s ≡ true → is_gone one after ≡ true }
    ensures answers { (change : Change → V → V) (tree : Streams → Doing (Streams × R))
        (old new : Reach V W) (one : Opened) (s after : Streams) (said : R) → StaysGoneWith tree
        → Follows W.outside change (tree s) old new
        (Ok (after, said))
        → is_gone one s ≡ true → is_gone one after ≡ true }
    ensures tells { (change : Change → V → V) (tree : Streams → Doing Streams) (old new : V)
        (one : Opened) (s after : Streams) → StaysGone tree
        → Tells change (tree s) old new after
        → is_gone one s ≡ true → is_gone one after ≡ true }
    ensures tells_answer { (change : Change → V → V) (tree : Streams → Doing (Streams × R))
        (old new : V) (one : Opened) (s after : Streams) (said : R) → StaysGoneWith tree
        → Tells change (tree s) old new (after, said)
        → is_gone one s ≡ true → is_gone one after ≡ true }
{}

/// So it leaves what was opened, in order of opening, and what it opens is added after it.
pub fn calls_keep_order<V, W: Wire, R>()
    ensures follows { (change : Change → V → V) (tree : Streams → Doing Streams)
        (old new : Reach V W) (s after : Streams) → Grows tree
        → Follows W.outside change (tree s) old new (Ok after)
        → Grown s after }
    ensures answers { (change : Change → V → V) (tree : Streams → Doing (Streams × R))
        (old new : Reach V W) (s after : Streams) (said : R) → GrowsWith tree
        → Follows W.outside change (tree s) old new
        (Ok (after, said))
        → Grown s after }
    ensures tells { (change : Change → V → V) (tree : Streams → Doing Streams) (old new : V)
        (s after : Streams) → Grows tree → Tells change (tree s) old new after → Grown s after }
    ensures tells_answer { (change : Change → V → V) (tree : Streams → Doing (Streams × R))
        (old new : V) (s after : Streams) (said : R) → GrowsWith tree
        → Tells change (tree s) old new (after, said) → Grown s after }
{}
