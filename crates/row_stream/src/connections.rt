//! Connections.
ghost use Rattle.std.specs.Prelude.{◌≡◌, [], ◌∷◌, true, false, Some, None, codes};
ghost use Rattle.model_value.specs.declared.action.Action.TheVariants.{Made, StartRead, Lost};
ghost use Rattle.model_value.specs.declared.kind.Kind.TheVariants.{ConnectionResetError, ConnectionRefusedError, RuntimeError};
ghost use Rattle.model_value.specs.declared.outcome.Outcome.TheVariants.{Value as Returned, Failed};
ghost use Rattle.model_value.specs.Value.{Nothing, Conn, exception_of};
ghost use Rattle.model_wire.specs.declared.answer.Answer.TheVariants as answer;
ghost use Rattle.model_wire.specs.declared.call.Call.TheVariants as call;
ghost use Rattle.model_stream.specs.declared.answers.Drain.TheVariants as drain;
ghost use Rattle.model_stream.specs.declared.answers.StreamGot.TheVariants as got;
ghost use Rattle.model_stream.specs.declared.answers.Wrote.TheVariants as wrote;
ghost use Rattle.model_stream.specs.declared.read_op.ReadOp.TheVariants.{UpTo, Line};
ghost use Rattle.model_stream.specs.Doing.{MakeFuture, CallSoon, Settle, asked_on};
ghost use Rattle.model_stream.specs.Connections.{connecting, unmade, start_read, readable, writable, lose, up, down, close, drop_connect, write_to, write_eof, drain_of, its_receiver};
ghost use Rattle.model_stream.specs.Receivers.{read, give_up_read};
ghost use Rattle.row_stream.specs.Made.{reading, unsent, closing, dying, dead, with_end, receiver_of};
ghost use Rattle.row_stream.specs.Played.{Asked, Changed, play, played};
ghost use Rattle.row_stream.specs.Readers as reader;

/// With a high mark of 8 and a low one of 2.
pub fn marks_of_a_writer()
    ensures would_wait { play (write_to 0 (codes "01234567") (unsent [] false []))
        (answer.Again ∷ [])
        ≡ played (Asked (call.Send 0 (codes "01234567")) ∷ [])
        (unsent (codes "01234567") false [], wrote.Done) }
    ensures kept { play (write_to 0 (codes "8") (unsent (codes "01234567") false [])) []
        ≡ played [] (unsent (codes "012345678") true [], wrote.Done) }
    ensures drain_waits { play (drain_of false 9 (unsent (codes "012345678") true [])) []
        ≡ played (Changed MakeFuture ∷ [])
        (unsent (codes "012345678") true (9 ∷ []), drain.Waits 9) }
    ensures a_part { play (writable 0 (unsent (codes "012345678") true (9 ∷ [])))
        (answer.Took 6 ∷ [])
        ≡ played (Asked (call.Send 0 (codes "012345678")) ∷ [])
        (unsent (codes "678") true (9 ∷ [])) }
    ensures resumes { play (writable 0 (unsent (codes "678") true (9 ∷ []))) (answer.Took 1 ∷ [])
        ≡ played (Asked (call.Send 0 (codes "678")) ∷ Changed (Settle 9 (Returned Nothing)) ∷ [])
        (unsent (codes "78") false []) }
    ensures not_now { play (writable 0 (unsent (codes "678") true (9 ∷ []))) (answer.Again ∷ [])
        ≡ played (Asked (call.Send 0 (codes "678")) ∷ []) (unsent (codes "678") true (9 ∷ [])) }
    ensures drain_goes { play (drain_of false 9 (unsent (codes "78") false [])) []
        ≡ played [] (unsent (codes "78") false [], drain.Goes) }
    ensures given_up { play (writable 0 (unsent [] false [])) [] ≡ played [] (unsent [] false []) }
{}

/// `write_eof` asks to shut at once where nothing is unsent; a write after it is refused, even of no
/// bytes.
pub fn write_after_eof()
    ensures shuts { play (write_eof 0 (unsent [] false [])) (answer.Done ∷ [])
        ≡ played (Asked (call.Shut 0) ∷ []) (with_end (unsent [] false [])) }
    ensures refused { play (write_to 0 [] (with_end (unsent [] false []))) []
        ≡ played [] (with_end (unsent [] false []), wrote.AfterEof) }
    ensures once { play (write_eof 0 (with_end (unsent [] false []))) []
        ≡ played [] (with_end (unsent [] false [])) }
    ensures closes { play (close 0 (unsent [] false [])) []
        ≡ played (Changed (CallSoon (Lost 0 false)) ∷ [])
        (dying false false [] (receiver_of (reader.reader []) None)) }
    ensures is_lost { play (lose 0 false
        (dying false false [] (receiver_of (reader.reader []) None)))
        (answer.Done ∷ [])
        ≡ played (Changed (Settle 5 (Returned Nothing)) ∷ Asked (call.Close 0) ∷ [])
        (dead false false (reader.ended [])) }
    ensures waits_for_what_is_unsent { play (write_eof 0 (unsent (codes "ab") false [])) []
        ≡ played [] (with_end (unsent (codes "ab") false [])) }
    ensures shuts_behind_it { play (writable 0 (with_end (unsent (codes "ab") false [])))
        (answer.Took 2 ∷ answer.Done ∷ [])
        ≡ played (Asked (call.Send 0 (codes "ab")) ∷ Asked (call.Shut 0) ∷ [])
        (with_end (unsent [] false [])) }
{}

/// A closing connection sends what is unsent, and is then lost at once.
pub fn closes_behind_what_is_unsent()
    ensures waits { play (close 0 (unsent (codes "ab") false [])) []
        ≡ played [] (closing (codes "ab") false) }
    ensures once { play (close 0 (closing (codes "ab") false)) []
        ≡ played [] (closing (codes "ab") false) }
    ensures takes_more { play (write_to 0 (codes "c") (closing (codes "ab") false)) []
        ≡ played [] (closing (codes "abc") false, wrote.Done) }
    ensures drain_yields { play (drain_of false 9 (closing (codes "ab") false)) []
        ≡ played [] (closing (codes "ab") false, drain.Yields) }
    ensures a_part { play (writable 0 (closing (codes "ab") false)) (answer.Took 1 ∷ [])
        ≡ played (Asked (call.Send 0 (codes "ab")) ∷ []) (closing (codes "b") false) }
    ensures is_lost { play (writable 0 (closing (codes "b") false))
        (answer.Took 1 ∷ answer.Done ∷ [])
        ≡ played (Asked (call.Send 0 (codes "b")) ∷ Changed (Settle 5 (Returned Nothing))
        ∷ Asked (call.Close 0) ∷ []) (dead false false (reader.ended [])) }
    ensures reads_no_more { play (readable 0 (closing (codes "b") false)) []
        ≡ played [] (closing (codes "b") false) }
{}

/// The other end is gone: what is unsent is dropped, and those who wait get the exception.
pub fn fails()
    ensures at_a_send { play (writable 0 (unsent (codes "012345678") true (9 ∷ [])))
        (answer.Broken ∷ [])
        ≡ played (Asked (call.Send 0 (codes "012345678")) ∷ Changed (CallSoon (Lost 0 true)) ∷ [])
        (dying true true (9 ∷ []) (receiver_of (reader.reader []) None)) }
    ensures at_a_receive { play (readable 0 (reading (codes "a") (Some 7))) (answer.Broken ∷ [])
        ≡ played (Asked (call.Recv 0) ∷ Changed (CallSoon (Lost 0 true)) ∷ [])
        (dying true false [] (receiver_of (reader.reader (codes "a")) (Some 7))) }
    ensures drops_writes { play
        (write_to 0 (codes "b") (dying true false [] (receiver_of (reader.reader []) None))) []
        ≡ played [] (dying true false [] (receiver_of (reader.reader []) None), wrote.Done) }
    ensures is_lost { play
        (lose 0 true (dying true true (9 ∷ 8 ∷ []) (receiver_of (reader.reader (codes "a")) (Some 7))))
        (answer.Done ∷ [])
        ≡ played
        (Changed (Settle 7 (Returned Nothing))
        ∷ Changed (Settle 5 (Failed (exception_of ConnectionResetError (codes "Connection lost"))))
        ∷ Changed (Settle 9 (Failed (exception_of ConnectionResetError (codes "Connection lost"))))
        ∷ Changed (Settle 8 (Failed (exception_of ConnectionResetError (codes "Connection lost"))))
        ∷ Asked (call.Close 0) ∷ [])
        (dead true true
        (reader.failed [] (exception_of ConnectionResetError (codes "Connection lost")))) }
    ensures reads_raise { play
        (asked_on its_receiver (read 9 Line)
        (dead true true
        (reader.failed (codes "a\n")
        (exception_of ConnectionResetError (codes "Connection lost"))))) []
        ≡ played [] (
          dead true true
              (reader.failed (codes "a\n")
              (exception_of ConnectionResetError (codes "Connection lost"))),
          got.Raises (exception_of ConnectionResetError (codes "Connection lost")),
        ) }
    ensures drains_raise { play (drain_of true 9 (dead false false (reader.ended []))) []
        ≡ played [] (
          dead false false (reader.ended []),
          drain.Raises (exception_of ConnectionResetError (codes "Connection lost")),
        ) }
{}

/// A read waits on a future of its own until it is woken; a second one at a time is refused.
pub fn reads()
    ensures waits { play (asked_on its_receiver (read 7 (UpTo 9)) (reading [] None)) []
        ≡ played (Changed MakeFuture ∷ []) (reading [] (Some 7), got.Waits 7) }
    ensures second { play (asked_on its_receiver (read 8 (UpTo 9)) (reading [] (Some 7))) []
        ≡ played [] (
          reading [] (Some 7),
          got.Raises
              (exception_of RuntimeError
              (codes "read called while another coroutine is already waiting for incoming data")),
        ) }
    ensures second_finds { play (asked_on its_receiver (read 8 (UpTo 9))
        (reading (codes "ab") (Some 7))) []
        ≡ played [] (reading [] (Some 7), got.Bytes (codes "ab")) }
    ensures is_woken { play (readable 0 (reading [] (Some 7))) (answer.Data (codes "ab") ∷ [])
        ≡ played (Asked (call.Recv 0) ∷ Changed (Settle 7 (Returned Nothing)) ∷ [])
        (reading (codes "ab") None) }
    ensures not_now { play (readable 0 (reading [] (Some 7))) (answer.Again ∷ [])
        ≡ played (Asked (call.Recv 0) ∷ []) (reading [] (Some 7)) }
    ensures given_up { give_up_read 7 (receiver_of (reader.reader []) (Some 7))
        ≡ receiver_of (reader.reader []) None }
    ensures another { give_up_read 6 (receiver_of (reader.reader []) (Some 7))
        ≡ receiver_of (reader.reader []) (Some 7) }
{}

/// A connection that is being made: the closed future is future 3, and the connect waits on future
/// 4.
pub fn connects()
    ensures stands { play (up 0 (connecting 3 4)) []
        ≡ played (Changed (CallSoon (Made 0)) ∷ Changed (CallSoon (StartRead 0))
        ∷ Changed (Settle 4 (Returned (Conn 0))) ∷ [])
        (record (connecting 3 4) { making = None }) }
    ensures is_refused { play (down 0 (connecting 3 4)) (answer.Done ∷ [])
        ≡ played (Changed
        (Settle 4 (Failed (exception_of ConnectionRefusedError (codes "connect refused"))))
        ∷ Asked (call.Close 0) ∷ [])
        (unmade (connecting 3 4)) }
    ensures is_dropped { play (drop_connect 0 (connecting 3 4)) (answer.Done ∷ [])
        ≡ played (Asked (call.Close 0) ∷ []) (unmade (connecting 3 4)) }
    ensures dropped_after { play (drop_connect 0 (unmade (connecting 3 4))) []
        ≡ played [] (unmade (connecting 3 4)) }
    ensures up_after { play (up 0 (unmade (connecting 3 4))) []
        ≡ played [] (unmade (connecting 3 4)) }
    ensures reads_not { (start_read (unmade (connecting 3 4))).began ≡ false }
    ensures begins { (start_read (connecting 3 4)).began ≡ true }
{}
