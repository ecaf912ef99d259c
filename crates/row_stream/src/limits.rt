//! How many connections are accepted at a time, and how many of each kind can be numbered.
ghost use Rattle.std.specs.Prelude.{◌≡◌, [], ◌∷◌, true, false, None, replicate};
ghost use Rattle.model_value.specs.declared.action.Action.TheVariants.{Made, StartRead, ReadableServer};
ghost use Rattle.model_wire.specs.declared.answer.Answer.TheVariants as answer;
ghost use Rattle.model_wire.specs.declared.call.Call.TheVariants as call;
ghost use Rattle.model_wire.specs.declared.watch.Watch.TheVariants as watch;
ghost use Rattle.model_stream.specs.Connections.{accepted, connecting, start_read};
ghost use Rattle.model_stream.specs.Doing.{MakeFuture, CallSoon};
ghost use Rattle.model_stream.specs.Streams.{act, may_listen, may_connect, may_launch, no_streams, OpenedServer, OpenedConn};
ghost use Rattle.model_stream.specs.Watching.{watch_list};
ghost use Rattle.row_stream.specs.Made.{reading};
ghost use Rattle.row_stream.specs.Opened.{at_most, listening, one_open, open_with};
ghost use Rattle.row_stream.specs.Played.{Asked, Changed, calls_in, connected, play, played};

/// A listener that is ready accepts a hundred connections, and leaves the next for another turn.
pub fn a_hundred_at_a_time()
    ensures asks { calls_in (play (act 5 true (ReadableServer 0) (at_most 200 listening))
        (replicate 101 answer.Conn)).happened ≡ 100 }
    ensures accepts { connected (play (act 5 true (ReadableServer 0) (at_most 200 listening))
        (replicate 101 answer.Conn)).ended ≡ 100 }
    ensures fewer { calls_in (play (act 5 true (ReadableServer 0) (at_most 200 listening))
        (answer.Conn ∷ answer.Conn ∷ answer.Again ∷ [])).happened ≡ 3 }
    ensures none_left { connected (play (act 5 true (ReadableServer 0) (at_most 200 listening))
        (answer.Conn ∷ answer.Broken ∷ [])).ended ≡ 1 }
{}

/// At most two connections can be numbered, then at most one, then none.
pub fn numbers_run_out()
    ensures one_more { play (act 5 true (ReadableServer 0) (at_most 2 (one_open (reading [] None))))
        (answer.Conn ∷ [])
        ≡ played
        (Asked (call.Accept 0) ∷ Changed MakeFuture ∷ Changed (CallSoon (Made 1))
        ∷ Changed (CallSoon (StartRead 1)) ∷ [])
        (at_most 2
        (open_with (reading [] None ∷ accepted 5 3 ∷ [])
        (OpenedServer 0 ∷ OpenedConn 0 ∷ OpenedConn 1 ∷ []))) }
    ensures no_more { play (act 5 true (ReadableServer 0) (at_most 1 (one_open (reading [] None))))
        []
        ≡ played [] (at_most 1 (one_open (reading [] None))) }
    ensures is_watched { watch_list (at_most 2 (one_open (reading [] None)))
        ≡ watch.Server 0 ∷ watch.Conn 0 true false ∷ [] }
    ensures is_unwatched { watch_list (at_most 1 (one_open (reading [] None)))
        ≡ watch.Conn 0 true false ∷ [] }
    ensures connects { may_connect (at_most 2 (one_open (reading [] None))) ≡ true }
    ensures connects_no_more { may_connect (at_most 1 (one_open (reading [] None))) ≡ false }
    ensures listens { may_listen (at_most 2 listening) ≡ true }
    ensures listens_no_more { may_listen (at_most 1 listening) ≡ false }
    ensures launches { may_launch (at_most 1 listening) ≡ true }
    ensures launches_none { may_launch (no_streams 0) ≡ false }
{}
