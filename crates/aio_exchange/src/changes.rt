//! Calls that ask nothing.
ghost use Rattle.std.specs.Prelude.{◌≡◌, Ok};
ghost use Rattle.model_stream.specs.Doing.{Change, Doing, Ends, Changes, and_then};
ghost use Rattle.aio_exchange.specs.Follows.{Follows, Reach};
ghost use Rattle.aio_exchange.specs.Tells.{Tells};

use aio_wire::Wire;

/// A tree that asks nothing is told piece by piece, and one after another.
pub fn trees_are_told<V, A, B>()
    ensures ends { (change : Change → V → V) (result : A) (at : V)
        → Tells change (Ends result) at at result }
    ensures changes { (change : Change → V → V) (it : Change) (rest : Doing A)
        (old between new : V) (result : A) → between ≡ change it old
        → Tells change rest between new result → Tells change (Changes it rest) old new result }
    ensures goes { (change : Change → V → V) (doing : Doing A) (next : A → Doing B) (a : A)
        (old between new : V) (result : B) → Tells change doing old between a
        → Tells change (next a) between new result
        → Tells change (and_then doing next) old new result }
{}

/// A call that asks nothing follows its tree, with the port as it was.
pub fn changes_are_calls<V, W: Wire, A>()
    ensures { (change : Change → V → V) (doing : Doing A) (old new : Reach V W) (result : A)
        → Tells change doing old.parts new.parts result → new.port ≡ old.port
        → Follows W.outside change doing old new (Ok result) }
{}
