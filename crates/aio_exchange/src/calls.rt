//! Calls that ask.
ghost use Rattle.std.specs.Prelude.{◌≡◌, Ok, Err, Result};
ghost use Rattle.model_wire.specs.Call.{Answer as AnyAnswer, Call as AnyCall};
ghost use Rattle.model_stream.specs.Doing.{Change, Doing, Ends, Changes, Asks, and_then};
ghost use Rattle.aio_wire.specs.declared.stop.Stop.{Stop as AnyStop};
ghost use Rattle.aio_wire.specs.declared.stop.Stop.TheVariants.{Memory as OutOfMemory};
ghost use Rattle.aio_exchange.specs.Exchanged.{AsksOne};
ghost use Rattle.aio_exchange.specs.Follows.{Follows, Reach};

use aio_wire::Wire;

/// A tree is followed piece by piece: its end, a change, an ask with its answer, an ask that has no
/// answer that fits; and where memory was refused before anything was asked, each tree is.
pub fn trees_are_followed<V, W: Wire, A>()
    ensures ends { (change : Change → V → V) (result : A) (at : Reach V W)
        → Follows W.outside change (Ends result)
        at at (Ok result) }
    ensures changes { (change : Change → V → V) (it : Change) (rest : Doing A)
        (old between new : Reach V W) (result : Result A AnyStop)
        → between.parts ≡ change it old.parts → between.port ≡ old.port
        → Follows W.outside change rest between new result
        → Follows W.outside change (Changes it rest)
        old new result }
    ensures asks { (change : Change → V → V) (call : AnyCall) (answer : AnyAnswer)
        (rest : AnyAnswer → Doing A) (old between new : Reach V W) (result : Result A AnyStop)
        → AsksOne W.outside call
        old.port between.port (Ok answer)
        → between.parts ≡ old.parts
        → Follows W.outside change (rest answer)
        between new result
        → Follows W.outside change (Asks call rest)
        old new result }
    ensures met { (change : Change → V → V) (call : AnyCall) (why : AnyStop)
        (rest : AnyAnswer → Doing A) (old new : Reach V W)
        → AsksOne W.outside call old.port new.port (Err why)
        → new.parts ≡ old.parts
        → Follows W.outside change (Asks call rest)
        old new (Err why) }
    ensures starved { (change : Change → V → V) (doing : Doing A) (old new : Reach V W)
        → new.port ≡ old.port
        → Follows W.outside change doing
        old new (Err OutOfMemory) }
{}

/// Calls go one after another, as their trees do; and a stop of the first is the whole one's.
pub fn calls_go_on<V, W: Wire, A, B>()
    ensures goes { (change : Change → V → V) (doing : Doing A) (next : A → Doing B) (a : A)
        (old between new : Reach V W) (result : Result B AnyStop)
        → Follows W.outside change doing old between (Ok a)
        → Follows W.outside change (next a) between new result
        → Follows W.outside change (and_then doing next)
        old new result }
    ensures stops { (change : Change → V → V) (doing : Doing A) (next : A → Doing B)
        (why : AnyStop) (old new : Reach V W)
        → Follows W.outside change doing old new (Err why)
        → Follows W.outside change (and_then doing next)
        old new (Err why) }
{}
