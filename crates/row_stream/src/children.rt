//! Children.
ghost use Rattle.std.specs.Prelude.{◌≡◌, [], ◌∷◌, true, false, Some, None, pos, negsuc, codes};
ghost use Rattle.model_pump.specs.declared.stream.Stream.TheVariants as stream;
ghost use Rattle.model_value.specs.declared.action.Action.TheVariants.{LostChild, WritableChild, ChildItem};
ghost use Rattle.model_value.specs.declared.action.ChildItem.TheVariants as item;
ghost use Rattle.model_value.specs.declared.kind.Kind.TheVariants.{BrokenPipeError};
ghost use Rattle.model_value.specs.declared.outcome.Outcome.TheVariants.{Value as Returned, Failed};
ghost use Rattle.model_value.specs.Value.{Nothing, Int, exception_of};
ghost use Rattle.model_wire.specs.declared.answer.Answer.TheVariants as answer;
ghost use Rattle.model_wire.specs.declared.call.Call.TheVariants as call;
ghost use Rattle.model_wire.specs.declared.event.Handed.TheVariants as to;
ghost use Rattle.model_wire.specs.declared.watch.Watch.TheVariants as watch;
ghost use Rattle.model_stream.specs.declared.answers.ChildWait.TheVariants as wait;
ghost use Rattle.model_stream.specs.declared.answers.Drain.TheVariants as drain;
ghost use Rattle.model_stream.specs.declared.answers.StreamGot.TheVariants as got;
ghost use Rattle.model_stream.specs.declared.answers.Wrote.TheVariants as wrote;
ghost use Rattle.model_stream.specs.declared.put.Limited.TheVariants as limited;
ghost use Rattle.model_stream.specs.declared.phase.Phase.TheVariants.{Open, Closing, Losing, Lost};
ghost use Rattle.model_stream.specs.declared.read_op.ReadOp.TheVariants.{UpTo};
ghost use Rattle.model_stream.specs.Children.{feed_more, tell_child, lose_child, close_child, write_child, wait_child, kill, new_child, its_pipe};
ghost use Rattle.model_stream.specs.Doing.{MakeFuture, CallSoon, Settle, asked_on};
ghost use Rattle.model_stream.specs.Receivers.{read};
ghost use Rattle.model_stream.specs.Requests as request;
ghost use Rattle.model_stream.specs.Requests.{OfChild};
ghost use Rattle.model_stream.specs.Streams.{act, launch, no_streams, OpenedChild};
ghost use Rattle.model_stream.specs.Watching.{watched_child};
ghost use Rattle.row_stream.specs.Made.{feeding, fed_out, over_input};
ghost use Rattle.row_stream.specs.Played.{Asked, Changed, play, played};
ghost use Rattle.row_stream.specs.Readers as reader;

/// A child that writes what it reads, fed by pieces of 8 bytes and less.
pub fn child_cat()
    ensures is_launched { play (launch (codes "cat" ∷ []) 5 (no_streams 100)) (answer.Child ∷ [])
        ≡ played (Asked (call.Launch (codes "cat" ∷ [])) ∷ Changed MakeFuture ∷ [])
        (record (no_streams 100) { children = new_child 5 ∷ []; opened = OpenedChild 0 ∷ [] }, Some 0) }
    ensures is_refused { play (launch (codes "cat" ∷ []) 5 (no_streams 100)) (answer.Refused ∷ [])
        ≡ played (Asked (call.Launch (codes "cat" ∷ [])) ∷ []) (no_streams 100, None) }
    ensures first { play (write_child 0 (codes "0123456789abcdef") (feeding [] false Open))
        (answer.Took 6 ∷ [])
        ≡ played (Asked (call.Feed 0 (codes "0123456789abcdef")) ∷ [])
        (feeding (codes "6789abcdef") true Open, wrote.Done) }
    ensures closes { play (close_child 0 (feeding (codes "6789abcdef") true Open)) []
        ≡ played [] (feeding (codes "6789abcdef") true Closing) }
    ensures drops { play (write_child 0 (codes "x") (feeding (codes "6789abcdef") true Closing)) []
        ≡ played [] (feeding (codes "6789abcdef") true Closing, wrote.Done) }
    ensures watched { watched_child 0 (Some (feeding (codes "6789abcdef") true Closing))
        ≡ watch.Child 0 true true true true true ∷ [] }
    ensures more { play (feed_more 0 (feeding (codes "6789abcdef") true Closing))
        (answer.Took 8 ∷ [])
        ≡ played (Asked (call.Feed 0 (codes "6789abcdef")) ∷ []) (feeding (codes "ef") true Closing) }
    ensures all { play (feed_more 0 (feeding (codes "ef") true Closing))
        (answer.Took 2 ∷ answer.Done ∷ [])
        ≡ played (Asked (call.Feed 0 (codes "ef")) ∷ Changed (Settle 5 (Returned Nothing))
        ∷ Asked (call.End 0) ∷ []) fed_out }
    ensures watched_after { watched_child 0 (Some fed_out)
        ≡ watch.Child 0 false false true true true ∷ [] }
{}

/// A child's pipes are read, and its exit is told to those who wait.
pub fn reads_and_exit()
    ensures waits { play (asked_on (its_pipe stream.Out) (read 7 (UpTo 4)) fed_out) []
        ≡ played (Changed MakeFuture ∷ []) (
          record fed_out { out = record { reader = reader.reader []; waiter = Some 7 } },
          got.Waits 7,
        ) }
    ensures is_woken { play
        (tell_child 0 (item.Out (codes "ab"))
        (record fed_out { out = record { reader = reader.reader []; waiter = Some 7 } })) []
        ≡ played (Changed (Settle 7 (Returned Nothing)) ∷ [])
        (record fed_out { out = record { reader = reader.reader (codes "ab"); waiter = None } }) }
    ensures end_of_errors { play (tell_child 0 item.ErrsEnd fed_out) []
        ≡ played [] (record fed_out { errs = record { reader = reader.ended []; waiter = None } }) }
    ensures ended_pipe { watched_child 0
        (Some (record fed_out { errs = record { reader = reader.ended []; waiter = None } }))
        ≡ watch.Child 0 false false true false true ∷ [] }
    ensures waits_for_exit { play (wait_child 8 fed_out) []
        ≡ played (Changed MakeFuture ∷ []) (record fed_out { waits = 8 ∷ [] }, wait.Waits 8) }
    ensures exits { play
        (tell_child 0 (item.Exit (negsuc 8)) (record fed_out { waits = 8 ∷ 9 ∷ [] })) []
        ≡ played (Changed (Settle 8 (Returned (Int (negsuc 8))))
        ∷ Changed (Settle 9 (Returned (Int (negsuc 8)))) ∷ [])
        (record fed_out { code = Some (negsuc 8) }) }
    ensures code { play (wait_child 8 (record fed_out { code = Some (pos 0) })) []
        ≡ played [] (record fed_out { code = Some (pos 0) }, wait.Code (pos 0)) }
    ensures kills { play (kill 0 fed_out) (answer.Done ∷ [])
        ≡ played (Asked (call.Kill 0) ∷ []) fed_out }
    ensures kills_none { play (kill 0 (record fed_out { code = Some (pos 0) })) []
        ≡ played [] (record fed_out { code = Some (pos 0) }) }
{}

/// A standard input that breaks.
pub fn breaks()
    ensures with_unsent { play (tell_child 0 item.Broken (feeding (codes "ab") false Open)) []
        ≡ played (Changed (CallSoon (LostChild 0 true)) ∷ [])
        (over_input (Losing true)) }
    ensures with_nothing { play (tell_child 0 item.Broken (feeding [] false Open)) []
        ≡ played (Changed (CallSoon (LostChild 0 false)) ∷ [])
        (over_input (Losing false)) }
    ensures afterwards { play (tell_child 0 item.Broken fed_out) [] ≡ played [] fed_out }
    ensures at_a_feed { play (write_child 0 (codes "ab") (feeding [] false Open))
        (answer.Broken ∷ [])
        ≡ played (Asked (call.Feed 0 (codes "ab")) ∷ Changed (CallSoon (LostChild 0 true)) ∷ []) (
          over_input (Losing true),
          wrote.Done,
        ) }
    ensures is_lost { play
        (lose_child 0 true
        (over_input (Losing true)))
        (answer.Done ∷ [])
        ≡ played (Changed
        (Settle 5 (Failed (exception_of BrokenPipeError (codes "Connection lost"))))
        ∷ Asked (call.End 0) ∷ []) (over_input (Lost true)) }
{}

/// What is told behind an exit, a pipe's end or a break changes nothing.
pub fn told_once_more()
    ensures second_exit { play
        (tell_child 0 (item.Exit (pos 4)) (record fed_out { code = Some (pos 3) })) []
        ≡ played [] (record fed_out { code = Some (pos 3) }) }
    ensures piece_behind_the_end { play
        (tell_child 0 (item.Out (codes "x"))
        (record fed_out { out = record { reader = reader.ended []; waiter = None } })) []
        ≡ played [] (record fed_out { out = record { reader = reader.ended []; waiter = None } }) }
    ensures broken_twice { play (tell_child 0 item.Broken (over_input (Losing true))) []
        ≡ played [] (over_input (Losing true)) }
{}

/// A number that no child has changes nothing, whatever is told of it or asked.
pub fn no_child_has_the_number()
    ensures writable { play (act 7 true (WritableChild 0) (no_streams 0)) []
        ≡ played [] (no_streams 0) }
    ensures broken { play (act 7 true (ChildItem 0 item.Broken) (no_streams 0)) []
        ≡ played [] (no_streams 0) }
    ensures exit { play (act 7 true (ChildItem 0 (item.Exit (pos 1))) (no_streams 0)) []
        ≡ played [] (no_streams 0) }
    ensures write { play (request.write (to.Child 0) (codes "a") (no_streams 0)) []
        ≡ played [] (no_streams 0, wrote.Done) }
    ensures close { play (request.close (to.Child 0) (no_streams 0)) [] ≡ played [] (no_streams 0) }
    ensures drain { play (request.drain false 7 (to.Child 0) (no_streams 0)) []
        ≡ played [] (no_streams 0, drain.Goes) }
    ensures limits { play
        (request.limits (Some (pos 2)) (Some (pos 1)) (to.Child 0) (no_streams 0)) []
        ≡ played [] (no_streams 0, limited.Set) }
    ensures read { play (request.read 7 (UpTo 1) (OfChild stream.Out 0) (no_streams 0)) []
        ≡ played [] (no_streams 0, got.Bytes []) }
    ensures wait { play (request.wait 7 0 (no_streams 0)) []
        ≡ played [] (no_streams 0, wait.Code (pos 0)) }
    ensures kill { play (request.kill 0 (no_streams 0)) [] ≡ played [] (no_streams 0) }
    ensures code { request.returncode 0 (no_streams 0) ≡ None }
    ensures watched { watched_child 0 None ≡ [] }
{}
