//! Listeners, and what is watched.
ghost use Rattle.std.specs.Prelude.{◌≡◌, [], ◌∷◌, true, false, Some, None, codes};
ghost use Rattle.model_value.specs.declared.action.Action.TheVariants.{Made, StartRead, Lost, ReadableServer, HandlerDone};
ghost use Rattle.model_wire.specs.declared.answer.Answer.TheVariants as answer;
ghost use Rattle.model_wire.specs.declared.call.Call.TheVariants as call;
ghost use Rattle.model_wire.specs.declared.watch.Watch.TheVariants as watch;
ghost use Rattle.model_stream.specs.Connections.{accepted, connecting, start_read};
ghost use Rattle.model_stream.specs.Doing.{MakeFuture, CallSoon};
ghost use Rattle.model_stream.specs.Streams.{act, handler_of, listen, connect, close_server, no_streams, OpenedServer, OpenedConn};
ghost use Rattle.model_stream.specs.Watching.{watch_list};
ghost use Rattle.row_stream.specs.Made.{reading, unsent, closing, dying, dead, receiver_of};
ghost use Rattle.row_stream.specs.Opened.{listening, open_with, one_open, not_listening};
ghost use Rattle.row_stream.specs.Played.{Asked, Changed, play, played};
ghost use Rattle.row_stream.specs.Readers as reader;

/// Listener 0 starts coroutine 3 for each connection. Futures are numbered from 5 on.
pub fn listener()
    ensures is_opened { play (listen 9 3 (no_streams 100)) (answer.Done ∷ [])
        ≡ played (Asked (call.Listen 9) ∷ []) (listening, Some 0) }
    ensures is_refused { play (listen 9 3 (no_streams 100)) (answer.Refused ∷ [])
        ≡ played (Asked (call.Listen 9) ∷ []) (no_streams 100, None) }
    ensures watched { watch_list listening ≡ watch.Server 0 ∷ [] }
    ensures accepts { play (act 5 true (ReadableServer 0) listening)
        (answer.Conn ∷ answer.Again ∷ [])
        ≡ played
        (Asked (call.Accept 0) ∷ Changed MakeFuture ∷ Changed (CallSoon (Made 0))
        ∷ Changed (CallSoon (StartRead 0))
        ∷ Asked (call.Accept 0) ∷ [])
        (one_open (accepted 5 3)) }
    ensures starts { handler_of 0 (one_open (accepted 5 3)) ≡ Some 3 }
    ensures not_yet { watch_list (one_open (accepted 5 3)) ≡ watch.Server 0 ∷ [] }
    ensures begins { play (act 6 true (StartRead 0) (one_open (accepted 5 3))) []
        ≡ played [] (one_open (start_read (accepted 5 3))) }
    ensures reads { watch_list (one_open (start_read (accepted 5 3)))
        ≡ watch.Server 0 ∷ watch.Conn 0 true false ∷ [] }
    ensures closes { play (close_server 0 listening) (answer.Done ∷ [])
        ≡ played (Asked (call.CloseServer 0) ∷ []) not_listening }
    ensures closes_once { play (close_server 0 not_listening) [] ≡ played [] not_listening }
    ensures accepts_no_more { play (act 5 true (ReadableServer 0) not_listening) []
        ≡ played [] not_listening }
    ensures unwatched { watch_list not_listening ≡ [] }
{}

/// A handler that failed closes its connection.
pub fn handlers()
    ensures returned { play (act 6 true (HandlerDone 0 1) (one_open (reading [] None))) []
        ≡ played [] (one_open (reading [] None)) }
    ensures failed { play (act 6 false (HandlerDone 0 1) (one_open (reading [] None))) []
        ≡ played (Changed (CallSoon (Lost 0 false)) ∷ [])
        (one_open (dying false false [] (receiver_of (reader.reader []) None))) }
{}

/// What is watched of a connection.
pub fn watches()
    ensures being_made { watch_list (open_with (connecting 3 4 ∷ []) (OpenedConn 0 ∷ []))
        ≡ watch.Making 0 ∷ [] }
    ensures both { watch_list (one_open (unsent (codes "a") false []))
        ≡ watch.Server 0 ∷ watch.Conn 0 true true ∷ [] }
    ensures closing { watch_list (one_open (closing (codes "a") false))
        ≡ watch.Server 0 ∷ watch.Conn 0 false true ∷ [] }
    ensures lost { watch_list (one_open (dead false false (reader.ended [])))
        ≡ watch.Server 0 ∷ [] }
    ensures in_order { watch_list
        (open_with (reading [] None ∷ []) (OpenedConn 0 ∷ OpenedServer 0 ∷ []))
        ≡ watch.Conn 0 true false ∷ watch.Server 0 ∷ [] }
    ensures connect { play (connect 9 5 listening) (answer.Conn ∷ [])
        ≡ played (Asked (call.Connect 9) ∷ Changed MakeFuture ∷ Changed MakeFuture ∷ [])
        (one_open (connecting 5 6), Some (0, 6)) }
{}
