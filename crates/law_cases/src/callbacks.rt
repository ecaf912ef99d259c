//! Callbacks. Each function has no body: its clauses are the laws. `own` tells the futures that were
//! kept before and how many connections there were, and `next` is the number of the future that is
//! made next.
ghost use Rattle.std.specs.Prelude.{ℕ, ◌≤◌, Bool, length};
ghost use Rattle.model_value.specs.Action.{Action};
ghost use Rattle.model_stream.specs.Streams.{Streams, act};
ghost use Rattle.model_stream.specs.Kept.{StreamsKeep};
ghost use Rattle.law_cases.specs.Trees.{IsOwn, Keeping, KeepsStreams, Owned};

/// A callback of a listener, a connection or a child appends handles of those alone, asks nothing
/// that a turn or what is added asks, and settles only futures that were kept. What is kept then was
/// kept before, or was made in it.
pub fn callbacks_settle_what_was_kept()
    ensures { (own : Owned) (next : ℕ) (returned : Bool) (it : Action) (s : Streams)
        → StreamsKeep (IsOwn own) s → length s.connections ≤ own.connections
        → Keeping (KeepsStreams own next s) own next (act next returned it s) }
{}
