//! All that is open. Each function has no body: its clauses are the law.
ghost use Rattle.std.specs.Prelude.{ℕ, ℤ, Bool, List, [], Option};
ghost use Rattle.model_value.specs.Action.{Action};
ghost use Rattle.model_wire.specs.declared.event.Handed.{Handed};
ghost use Rattle.model_stream.specs.declared.answers.ChildWait.{ChildWait};
ghost use Rattle.model_stream.specs.declared.answers.Wrote.{Wrote};
ghost use Rattle.model_stream.specs.declared.put.Limited.{Limited};
ghost use Rattle.model_stream.specs.Reading.{ReadOp};
ghost use Rattle.model_stream.specs.Receivers.{AllGot, StreamGot};
ghost use Rattle.model_stream.specs.Requests as requests;
ghost use Rattle.model_stream.specs.Requests.{StreamReader};
ghost use Rattle.model_stream.specs.Senders.{Drain};
ghost use Rattle.model_stream.specs.Streams as plain;
ghost use Rattle.model_stream.specs.Streams.{Streams};
ghost use Rattle.law_order.specs.Fronts.{MayGiveUp, way_of};
ghost use Rattle.law_order.specs.Sides.{AreKept, KeepsAll, KeepsAllBy, KeepsAllWith};

/// Whatever a callback does, and a listener, a connect and a launch, keeps each sound sending side
/// sound and in order: what was handed on stays a front of what was written, and what is unsent
/// the rest, until a loss is scheduled. None without an exception drops anything, but where a
/// connection is given up before it stands.
pub fn callbacks_keep_each_in_order()
    ensures acts { (next : ℕ) (returned : Bool) (it : Action) (s : Streams)
        → KeepsAllBy (way_of it) s (plain.act next returned it s) }
    ensures listens { (port handler : ℕ) (s : Streams)
        → KeepsAllWith {R = Option ℕ} s (plain.listen port handler s) }
    ensures closes { (id : ℕ) (s : Streams) → KeepsAll s (plain.close_server id s) }
    ensures connects { (port next : ℕ) (s : Streams)
        → KeepsAllWith {R = Option (ℕ × ℕ)} s (plain.connect port next s) }
    ensures launches { (words : List (List ℕ)) (next : ℕ) (s : Streams)
        → KeepsAllWith {R = Option ℕ} s (plain.launch words next s) }
{}

/// So does each request on what was opened.
pub fn requests_keep_each_in_order()
    ensures write { (whom : Handed) (piece : List ℕ) (s : Streams)
        → KeepsAllWith {R = Wrote} s (requests.write whom piece s) }
    ensures write_eof { (id : ℕ) (s : Streams) → KeepsAll s (requests.write_eof id s) }
    ensures drain { (yielded : Bool) (next : ℕ) (whom : Handed) (s : Streams)
        → KeepsAllWith {R = Drain} s (requests.drain yielded next whom s) }
    ensures limits { (high low : Option ℤ) (whom : Handed) (s : Streams)
        → KeepsAllWith {R = Limited} s (requests.limits high low whom s) }
    ensures close { (whom : Handed) (s : Streams) → KeepsAll s (requests.close whom s) }
    ensures drop_connect { (id : ℕ) (s : Streams)
        → KeepsAllBy (MayGiveUp id) s (requests.drop_connect id s) }
    ensures read { (next : ℕ) (op : ReadOp) (from : StreamReader) (s : Streams)
        → KeepsAllWith {R = StreamGot} s (requests.read next op from s) }
    ensures read_all { (next : ℕ) (from : StreamReader) (s : Streams)
        → KeepsAllWith {R = AllGot} s (requests.read_all next from s) }
    ensures give_up { (on : ℕ) (from : StreamReader) (s : Streams)
        → AreKept s [] (requests.give_up_read on from s) }
    ensures wait { (next id : ℕ) (s : Streams)
        → KeepsAllWith {R = ChildWait} s (requests.wait next id s) }
    ensures kill { (id : ℕ) (s : Streams) → KeepsAll s (requests.kill id s) }
{}
