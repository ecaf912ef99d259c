//! Requests on connections and children, on the whole of streams.
ghost use Rattle.std.specs.Prelude.{◌≡◌, [], ◌∷◌, true, false, Some, None, pos, codes};
ghost use Rattle.model_pump.specs.declared.stream.Stream.TheVariants as stream;
ghost use Rattle.model_value.specs.declared.action.Action.TheVariants.{Made, StartRead, Lost, Up, Down, Readable, Writable, ChildItem, LostChild};
ghost use Rattle.model_value.specs.declared.action.ChildItem.TheVariants as item;
ghost use Rattle.model_value.specs.declared.kind.Kind.TheVariants.{BrokenPipeError, ConnectionResetError, ConnectionRefusedError};
ghost use Rattle.model_value.specs.declared.outcome.Outcome.TheVariants.{Value as Returned, Failed};
ghost use Rattle.model_value.specs.Value.{Nothing, Conn, Int, exception_of};
ghost use Rattle.model_wire.specs.declared.answer.Answer.TheVariants as answer;
ghost use Rattle.model_wire.specs.declared.call.Call.TheVariants as call;
ghost use Rattle.model_wire.specs.declared.event.Event.TheVariants as event;
ghost use Rattle.model_wire.specs.declared.event.Handed.TheVariants as to;
ghost use Rattle.model_wire.specs.declared.watch.Watch.TheVariants as watch;
ghost use Rattle.model_stream.specs.declared.answers.ChildWait.TheVariants as wait;
ghost use Rattle.model_stream.specs.declared.answers.Drain.TheVariants as drain;
ghost use Rattle.model_stream.specs.declared.answers.StreamGot.TheVariants as got;
ghost use Rattle.model_stream.specs.declared.answers.Wrote.TheVariants as wrote;
ghost use Rattle.model_stream.specs.declared.phase.Phase.TheVariants.{Open, Closing, Losing, Lost as IsLost};
ghost use Rattle.model_stream.specs.declared.put.Limited.TheVariants as limited;
ghost use Rattle.model_stream.specs.declared.read_op.ReadOp.TheVariants.{UpTo};
ghost use Rattle.model_stream.specs.Connections.{connecting, unmade};
ghost use Rattle.model_stream.specs.Doing.{MakeFuture, CallSoon, Settle};
ghost use Rattle.model_stream.specs.History.{handed, written_to};
ghost use Rattle.model_stream.specs.Receivers.{second_waiter};
ghost use Rattle.model_stream.specs.Requests as request;
ghost use Rattle.model_stream.specs.Requests.{OfConn, OfChild};
ghost use Rattle.model_stream.specs.Streams.{act, connect, no_streams};
ghost use Rattle.model_stream.specs.Watching.{watch_list};
ghost use Rattle.row_stream.specs.Made.{child_of, conn_of, dead, dropped, dying, fed_out, feeding, looked, over_input, reading, receiver_of, sender_of, unsent, with_end};
ghost use Rattle.row_stream.specs.Opened.{only, only_child, with_piece};
ghost use Rattle.row_stream.specs.Played.{Asked, Changed, play, played};
ghost use Rattle.row_stream.specs.Readers as reader;
ghost use Rattle.row_stream.specs.Writers.{writer};

/// A connect that is refused, dropped while it is being made, and dropped after it stands. Futures
/// are numbered from 5 on.
pub fn connects()
    ensures begins { play (connect 9 5 (no_streams 100)) (answer.Conn ∷ [])
        ≡ played (Asked (call.Connect 9) ∷ Changed MakeFuture ∷ Changed MakeFuture ∷ [])
        (only (connecting 5 6), Some (0, 6)) }
    ensures refused_at_once { play (connect 9 5 (no_streams 100)) (answer.Refused ∷ [])
        ≡ played (Asked (call.Connect 9) ∷ []) (no_streams 100, None) }
    ensures refused { play (act 7 true (Down 0) (only (connecting 5 6))) (answer.Done ∷ [])
        ≡ played (Changed
        (Settle 6 (Failed (exception_of ConnectionRefusedError (codes "connect refused"))))
        ∷ Asked (call.Close 0) ∷ [])
        (only (unmade (connecting 5 6))) }
    ensures dropped_while_made { play (request.drop_connect 0 (only (connecting 5 6)))
        (answer.Done ∷ [])
        ≡ played (Asked (call.Close 0) ∷ []) (only (unmade (connecting 5 6))) }
    ensures up_is_nothing { play (act 7 true (Up 0) (only (unmade (connecting 5 6)))) []
        ≡ played [] (only (unmade (connecting 5 6))) }
    ensures unwatched { watch_list (only (unmade (connecting 5 6))) ≡ [] }
    ensures stands { play (act 7 true (Up 0) (only (connecting 5 6))) []
        ≡ played (Changed (CallSoon (Made 0)) ∷ Changed (CallSoon (StartRead 0))
        ∷ Changed (Settle 6 (Returned (Conn 0))) ∷ [])
        (only (record (connecting 5 6) { making = None })) }
    ensures dropped_after_up { play
        (request.drop_connect 0 (only (record (connecting 5 6) { making = None }))) []
        ≡ played (Changed (CallSoon (Lost 0 false)) ∷ []) (only dropped) }
    ensures reads_never { play (act 7 true (StartRead 0) (only dropped)) []
        ≡ played [] (only dropped) }
{}

/// A drain whose task is cancelled stays in its place, and its future, which is done, is told with
/// the others.
pub fn a_drain_is_cancelled()
    ensures waits { play
        (request.drain false 9 (to.Conn 0) (only (unsent (codes "012345678") true []))) []
        ≡ played (Changed MakeFuture ∷ [])
        (only (unsent (codes "012345678") true (9 ∷ [])), drain.Waits 9) }
    ensures another { play
        (request.drain false 10 (to.Conn 0) (only (unsent (codes "012345678") true (9 ∷ [])))) []
        ≡ played (Changed MakeFuture ∷ [])
        (only (unsent (codes "012345678") true (9 ∷ 10 ∷ [])), drain.Waits 10) }
    ensures both_are_told { play
        (act 11 true (Writable 0) (only (unsent (codes "012345678") true (9 ∷ 10 ∷ []))))
        (answer.Took 8 ∷ [])
        ≡ played
        (Asked (call.Send 0 (codes "012345678")) ∷ Changed (Settle 9 (Returned Nothing))
        ∷ Changed (Settle 10 (Returned Nothing)) ∷ [])
        (only (unsent (codes "8") false [])) }
{}

/// All who wait until a connection is closed await one future, so a cancel of one of them cancels
/// it for all. It is told once.
pub fn two_wait_until_it_is_closed()
    ensures one_future { request.closed_future (to.Conn 0) (only (unsent [] false [])) ≡ Some 5 }
    ensures closes { play (request.close (to.Conn 0) (only (unsent [] false []))) []
        ≡ played (Changed (CallSoon (Lost 0 false)) ∷ [])
        (only (dying false false [] (receiver_of (reader.reader []) None))) }
    ensures the_same_later { request.closed_future (to.Conn 0)
        (only (dying false false [] (receiver_of (reader.reader []) None))) ≡ Some 5 }
    ensures told_once { play
        (act 6 true (Lost 0 false)
        (only (dying false false [] (receiver_of (reader.reader []) None)))) (answer.Done ∷ [])
        ≡ played (Changed (Settle 5 (Returned Nothing)) ∷ Asked (call.Close 0) ∷ [])
        (only (dead false false (reader.ended []))) }
    ensures after_the_loss { request.closed_future (to.Conn 0)
        (only (dead false false (reader.ended []))) ≡ Some 5 }
    ensures of_a_child { request.closed_future (to.Child 0) (only_child fed_out) ≡ Some 5 }
    ensures of_none { request.closed_future (to.Child 1) (only_child fed_out) ≡ None }
{}

/// A read that waits is given up when its task is resumed, and the next one waits anew.
pub fn a_read_is_given_up()
    ensures waits { play (request.read 7 (UpTo 9) (OfConn 0) (only (reading [] None))) []
        ≡ played (Changed MakeFuture ∷ []) (only (reading [] (Some 7)), got.Waits 7) }
    ensures given_up { request.give_up_read 7 (OfConn 0) (only (reading [] (Some 7)))
        ≡ only (reading [] None) }
    ensures of_another { request.give_up_read 6 (OfConn 0) (only (reading [] (Some 7)))
        ≡ only (reading [] (Some 7)) }
    ensures again { play (request.read 8 (UpTo 9) (OfConn 0) (only (reading [] None))) []
        ≡ played (Changed MakeFuture ∷ []) (only (reading [] (Some 8)), got.Waits 8) }
    ensures woken { play (act 9 true (Readable 0) (only (reading [] (Some 8))))
        (answer.Data (codes "ab") ∷ [])
        ≡ played (Asked (call.Recv 0) ∷ Changed (Settle 8 (Returned Nothing)) ∷ [])
        (only (reading (codes "ab") None)) }
    ensures finds { play (request.read 9 (UpTo 9) (OfConn 0) (only (reading (codes "ab") None))) []
        ≡ played [] (only (reading [] None), got.Bytes (codes "ab")) }
    ensures of_a_child { request.give_up_read 7 (OfChild stream.Out 0)
        (only_child
        (record fed_out { out = receiver_of (reader.reader []) (Some 7) })) ≡ only_child fed_out }
    ensures of_its_errors { request.give_up_read 7 (OfChild stream.Errs 0)
        (only_child
        (record fed_out { out = receiver_of (reader.reader []) (Some 7) }))
        ≡ only_child (record fed_out { out = receiver_of (reader.reader []) (Some 7) }) }
{}

/// A read of all that comes: each look takes what is held, until the end came.
pub fn reads_all()
    ensures takes_and_waits { play
        (request.read_all 7 (OfConn 0) (only (reading (codes "ab") None))) []
        ≡ played (Changed MakeFuture ∷ [])
        (only (reading [] (Some 7)), looked (codes "ab") (got.Waits 7)) }
    ensures waits { play (request.read_all 7 (OfConn 0) (only (reading [] None))) []
        ≡ played (Changed MakeFuture ∷ [])
        (only (reading [] (Some 7)), looked [] (got.Waits 7)) }
    ensures resumes { play
        (request.read_all 7 (OfChild stream.Errs 0)
        (only_child
        (record fed_out { errs = receiver_of (reader.paused (codes "123456789")) None }))) []
        ≡ played (Changed MakeFuture ∷ []) (
          only_child (record fed_out { errs = receiver_of (reader.reader []) (Some 7) }),
          looked (codes "123456789") (got.Waits 7),
        ) }
    ensures ends { play
        (request.read_all 7 (OfChild stream.Out 0)
        (only_child (record fed_out { out = receiver_of (reader.ended (codes "cd")) None }))) []
        ≡ played [] (
          only_child (record fed_out { out = receiver_of (reader.ended []) None }),
          looked (codes "cd") (got.Bytes []),
        ) }
    ensures raises { play
        (request.read_all 7 (OfConn 0)
        (only
        (dead true false
        (reader.failed (codes "ab")
        (exception_of ConnectionResetError (codes "Connection lost")))))) []
        ≡ played [] (
          only
              (dead true false
              (reader.failed (codes "ab")
              (exception_of ConnectionResetError (codes "Connection lost")))),
          looked [] (got.Raises (exception_of ConnectionResetError (codes "Connection lost"))),
        ) }
    ensures second { play (request.read_all 8 (OfConn 0) (only (reading (codes "ab") (Some 7)))) []
        ≡ played []
        (only (reading [] (Some 7)), looked (codes "ab") (got.Raises second_waiter)) }
{}

/// What is written is noted, unless it is refused, empty or dropped; what is handed is read off the
/// events.
pub fn writes_are_noted()
    ensures kept { play
        (request.write (to.Conn 0) (codes "8") (only (unsent (codes "0123") false []))) []
        ≡ played []
        (with_piece (to.Conn 0) (codes "8") (only (unsent (codes "01238") false [])), wrote.Done) }
    ensures offered { play (request.write (to.Conn 0) (codes "ab") (only (unsent [] false [])))
        (answer.Took 1 ∷ [])
        ≡ played (Asked (call.Send 0 (codes "ab")) ∷ [])
        (with_piece (to.Conn 0) (codes "ab") (only (unsent (codes "b") false [])), wrote.Done) }
    ensures empty { play (request.write (to.Conn 0) [] (only (unsent [] false []))) []
        ≡ played [] (only (unsent [] false []), wrote.Done) }
    ensures refused { play
        (request.write (to.Conn 0) (codes "a") (only (with_end (unsent [] false [])))) []
        ≡ played [] (only (with_end (unsent [] false [])), wrote.AfterEof) }
    ensures dropped { play
        (request.write (to.Conn 0) (codes "a")
        (only (dying true false [] (receiver_of (reader.reader []) None)))) []
        ≡ played []
        (only (dying true false [] (receiver_of (reader.reader []) None)), wrote.Done) }
    ensures of_a_closing_child { play
        (request.write (to.Child 0) (codes "a")
        (only_child (feeding (codes "b") false Closing))) []
        ≡ played [] (only_child (feeding (codes "b") false Closing), wrote.Done) }
    ensures of_none { play (request.write (to.Child 1) (codes "a") (only_child fed_out)) []
        ≡ played [] (only_child fed_out, wrote.Done) }
    ensures all { written_to (to.Conn 0)
        (with_piece (to.Conn 0) (codes "cd")
        (with_piece (to.Child 0) (codes "xy")
        (with_piece (to.Conn 1) (codes "z")
        (with_piece (to.Conn 0) (codes "ab") (no_streams 100))))).written ≡ codes "abcd" }
    ensures handed_on { handed (to.Conn 0)
        (event.Called (call.Send 0 (codes "abcd")) ∷ event.Got (answer.Took 2)
        ∷ event.Called (call.Send 0 (codes "cd")) ∷ event.Got answer.Again
        ∷ event.Called (call.Feed 0 (codes "xy")) ∷ event.Got (answer.Took 1)
        ∷ event.Called (call.Send 1 (codes "z")) ∷ event.Got (answer.Took 1)
        ∷ event.Called (call.Send 0 (codes "cd")) ∷ event.Got (answer.Took 1) ∷ [])
        ≡ codes "abc" }
    ensures fed { handed (to.Child 0)
        (event.Called (call.Send 0 (codes "cd")) ∷ event.Got answer.Again
        ∷ event.Called (call.Feed 0 (codes "xy")) ∷ event.Got (answer.Took 1) ∷ [])
        ≡ codes "x" }
{}

/// Marks that are asked for.
pub fn sets_limits()
    ensures is_set { play
        (request.limits (Some (pos 8)) (Some (pos 2)) (to.Conn 0)
        (only (unsent (codes "ab") false []))) []
        ≡ played [] (only (unsent (codes "ab") false []), limited.Set) }
    ensures pauses { play
        (request.limits (Some (pos 8)) (Some (pos 2)) (to.Child 0)
        (only_child (feeding (codes "012345678") false Open))) []
        ≡ played [] (only_child (feeding (codes "012345678") true Open), limited.Set) }
    ensures is_refused { play
        (request.limits (Some (pos 2)) (Some (pos 8)) (to.Conn 0)
        (only (unsent (codes "ab") false []))) []
        ≡ played [] (only (unsent (codes "ab") false []), limited.BadLimits) }
{}

/// A child's exit comes before its pipes end.
pub fn an_exit_before_the_pipes_end()
    ensures waits { play (request.wait 7 0 (only_child fed_out)) []
        ≡ played (Changed MakeFuture ∷ [])
        (only_child (record fed_out { waits = 7 ∷ [] }), wait.Waits 7) }
    ensures no_code { request.returncode 0 (only_child (record fed_out { waits = 7 ∷ [] })) ≡ None }
    ensures exits { play
        (act 8 true (ChildItem 0 (item.Exit (pos 3)))
        (only_child (record fed_out { waits = 7 ∷ [] }))) []
        ≡ played (Changed (Settle 7 (Returned (Int (pos 3)))) ∷ [])
        (only_child (record fed_out { code = Some (pos 3) })) }
    ensures its_code { request.returncode 0 (only_child (record fed_out { code = Some (pos 3) }))
        ≡ Some (pos 3) }
    ensures told_again { play (request.wait 8 0
        (only_child (record fed_out { code = Some (pos 3) }))) []
        ≡ played [] (only_child (record fed_out { code = Some (pos 3) }), wait.Code (pos 3)) }
    ensures still_watched { watch_list (only_child (record fed_out { code = Some (pos 3) }))
        ≡ watch.Child 0 false false true true false ∷ [] }
    ensures still_writes { play
        (act 8 true (ChildItem 0 (item.Out (codes "ab")))
        (only_child (record fed_out { code = Some (pos 3) }))) []
        ≡ played []
        (only_child
        (record fed_out {
          code = Some (pos 3);
          out = receiver_of (reader.reader (codes "ab")) None;
        })) }
    ensures ends { play
        (act 8 true (ChildItem 0 item.OutEnd)
        (only_child (record fed_out { code = Some (pos 3) }))) []
        ≡ played []
        (only_child
        (record fed_out { code = Some (pos 3); out = receiver_of (reader.ended []) None })) }
    ensures is_not_killed { play (request.kill 0
        (only_child (record fed_out { code = Some (pos 3) }))) []
        ≡ played [] (only_child (record fed_out { code = Some (pos 3) })) }
{}

/// A standard input that breaks is found by an item, or by a feed.
pub fn a_broken_input()
    ensures by_an_item { play
        (act 6 true (ChildItem 0 item.Broken) (only_child (feeding (codes "ab") false Open))) []
        ≡ played (Changed (CallSoon (LostChild 0 true)) ∷ []) (only_child (over_input (Losing true))) }
    ensures by_an_item_with_nothing_unsent { play
        (act 6 true (ChildItem 0 item.Broken) (only_child (feeding [] false Open))) []
        ≡ played (Changed (CallSoon (LostChild 0 false)) ∷ [])
        (only_child (over_input (Losing false))) }
    ensures by_a_feed { play
        (request.write (to.Child 0) (codes "ab") (only_child (feeding [] false Open)))
        (answer.Broken ∷ [])
        ≡ played (Asked (call.Feed 0 (codes "ab")) ∷ Changed (CallSoon (LostChild 0 true)) ∷ [])
        (with_piece (to.Child 0) (codes "ab") (only_child (over_input (Losing true))), wrote.Done) }
    ensures found_twice { play
        (act 6 true (ChildItem 0 item.Broken) (only_child (over_input (Losing true)))) []
        ≡ played [] (only_child (over_input (Losing true))) }
    ensures drops_writes { play
        (request.write (to.Child 0) (codes "c") (only_child (over_input (Losing true)))) []
        ≡ played [] (only_child (over_input (Losing true)), wrote.Done) }
    ensures is_lost { play (act 6 true (LostChild 0 true) (only_child (over_input (Losing true))))
        (answer.Done ∷ [])
        ≡ played (Changed
        (Settle 5 (Failed (exception_of BrokenPipeError (codes "Connection lost"))))
        ∷ Asked (call.End 0) ∷ [])
        (only_child (over_input (IsLost true))) }
    ensures yields { play
        (request.drain false 7 (to.Child 0) (only_child (over_input (IsLost true)))) []
        ≡ played [] (only_child (over_input (IsLost true)), drain.Yields) }
    ensures raises { play
        (request.drain true 7 (to.Child 0) (only_child (over_input (IsLost true)))) []
        ≡ played [] (
          only_child (over_input (IsLost true)),
          drain.Raises (exception_of ConnectionResetError (codes "Connection lost")),
        ) }
{}
