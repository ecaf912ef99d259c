//! Laws of the machine along a way. Each function has no body: its clauses are the laws. `S` is the
//! state of what is added to the loop's own requests, and `halts` how a run ends in the tree.
ghost use Rattle.std.specs.Prelude.{◌≡◌, ℕ, ◌++◌, [], ◌∷◌, false, List};
ghost use Rattle.model_wire.specs.declared.event.End.TheVariants as end;
ghost use Rattle.model_wire.specs.Call.{Answer as AnyAnswer, Call as AnyCall};
ghost use Rattle.model_wire.specs.Fits.{fits};
ghost use Rattle.model_wire.specs.Journal.{Entry, Answered, Refused};
ghost use Rattle.model_wire.specs.Trace.{End as HowItEnds};
ghost use Rattle.model_loop.specs.Futures.{next_future};
ghost use Rattle.model_stream.specs.Doing.{Asks, Doing, Ends};
ghost use Rattle.model_stream.specs.Streams.{Streams};
ghost use Rattle.model_machine.specs.Does.{does};
ghost use Rattle.model_machine.specs.State.{State};
ghost use Rattle.model_machine.specs.Went.{answers_in};
ghost use Rattle.aio_exchange.specs.Exchanged.{AllFit, entries_of};
ghost use Rattle.aio_exchange.specs.Ways.{Leads, Move, had_on};
ghost use Rattle.law_cases.specs.TreeEnd.{IsStreamsEnd, owned_in as plain_in};
ghost use Rattle.law_cases.specs.Trees.{Keeping, KeepsStreams};
ghost use Rattle.refine_streams.specs.Along.{along, called_on, heard_on};

/// Where the outside answers so, the machine goes the way, and then does what the tree's result
/// says; where it has no answer that fits, the run ends there.
pub fn trees_are_done<S, R, A>()
    ensures goes { (halts : HowItEnds → State S → R) (next : A → State S → R) (tree : Doing A)
        (way : List Move) (it : A) (s : State S) (left : List Entry) → Leads tree way (Ends it)
        → AllFit (had_on way) → s.answers ≡ entries_of (had_on way) ++ left
        → does halts tree next s ≡ next it (along way left s) }
    ensures over { (halts : HowItEnds → State S → R) (next : A → State S → R) (tree : Doing A)
        (way : List Move) (call : AnyCall) (rest : AnyAnswer → Doing A) (s : State S)
        → Leads tree way (Asks call rest) → AllFit (had_on way)
        → s.answers ≡ entries_of (had_on way) ++ []
        → does halts tree next s ≡ halts (end.Over call) (called_on way call [] s) }
    ensures refused { (halts : HowItEnds → State S → R) (next : A → State S → R) (tree : Doing A)
        (way : List Move) (call : AnyCall) (rest : AnyAnswer → Doing A) (s : State S)
        (line cause : ℕ) (left : List Entry) → Leads tree way (Asks call rest)
        → AllFit (had_on way) → s.answers ≡ entries_of (had_on way) ++ Refused line cause ∷ left
        → does halts tree next s
        ≡ halts (end.JournalRefused line cause)
        (called_on way call (Refused line cause ∷ left) s) }
    ensures misfit { (halts : HowItEnds → State S → R) (next : A → State S → R) (tree : Doing A)
        (way : List Move) (call : AnyCall) (rest : AnyAnswer → Doing A) (s : State S)
        (answer : AnyAnswer) (left : List Entry) → Leads tree way (Asks call rest)
        → AllFit (had_on way) → s.answers ≡ entries_of (had_on way) ++ Answered answer ∷ left
        → fits call answer ≡ false
        → does halts tree next s
        ≡ halts (end.Mismatch (answers_in (heard_on way call answer left s).events) call)
        (heard_on way call answer left s) }
{}

/// Where a tree keeps what streams keep, the state after its way is one in which a tree may end:
/// what was plain is so, what was made is plain and pending, the loop's parts changed alone, and
/// with the streams that it ends with each future that these keep is a plain one.
pub fn ways_end_as_trees_do<S>()
    ensures { (tree : Doing Streams) (way : List Move) (streams : Streams) (s : State S)
        (left : List Entry)
        → Keeping
        (KeepsStreams (plain_in s) (next_future s.loop.parts) s.streams)
        (plain_in s) (next_future s.loop.parts) tree
        → Leads tree way (Ends streams) → AllFit (had_on way)
        → s.answers ≡ entries_of (had_on way) ++ left
        → IsStreamsEnd s (along way left s) streams }
{}
