//! All that was opened.
ghost use Rattle.std.specs.Prelude.{◌≡◌, ℕ, ℤ, Bool, true, List, [], Option};
ghost use Rattle.model_value.specs.Action.{Action};
ghost use Rattle.model_wire.specs.declared.event.Handed.{Handed};
ghost use Rattle.model_stream.specs.Reading.{ReadOp};
ghost use Rattle.model_stream.specs.Requests as requests;
ghost use Rattle.model_stream.specs.Requests.{StreamReader};
ghost use Rattle.model_stream.specs.Streams as plain;
ghost use Rattle.model_stream.specs.Streams.{Opened, Streams};
ghost use Rattle.model_stream.specs.Watching.{watched};
ghost use Rattle.law_over.specs.Gone.{StaysGone, StaysGoneWith, is_gone};
ghost use Rattle.law_over.specs.Grown.{Grown, Grows, GrowsWith};

/// A select waits for nothing of what is gone.
pub fn gone_is_unwatched()
    ensures { (s : Streams) (one : Opened) → is_gone one s ≡ true → watched s one ≡ [] }
{}

/// What is gone stays so in each callback, and where something is opened, whichever answers come.
pub fn callbacks_leave_gone()
    ensures acts { (next : ℕ) (returned : Bool) (it : Action)
        → StaysGone (plain.act next returned it) }
    ensures listens { (port handler : ℕ) → StaysGoneWith (plain.listen port handler) }
    ensures closes { (id : ℕ) → StaysGone (plain.close_server id) }
    ensures connects { (port next : ℕ) → StaysGoneWith (plain.connect port next) }
    ensures launches { (words : List (List ℕ)) (next : ℕ)
        → StaysGoneWith (plain.launch words next) }
{}

/// What was opened stays in each callback, in order of opening, and what is opened is added after it.
pub fn callbacks_keep_order()
    ensures acts { (next : ℕ) (returned : Bool) (it : Action)
        → Grows (plain.act next returned it) }
    ensures listens { (port handler : ℕ) → GrowsWith (plain.listen port handler) }
    ensures closes { (id : ℕ) → Grows (plain.close_server id) }
    ensures connects { (port next : ℕ) → GrowsWith (plain.connect port next) }
    ensures launches { (words : List (List ℕ)) (next : ℕ) → GrowsWith (plain.launch words next) }
{}

/// What is gone stays so in each request on what was opened.
pub fn requests_leave_gone()
    ensures write { (whom : Handed) (piece : List ℕ)
        → StaysGoneWith (requests.write whom piece) }
    ensures write_eof { (id : ℕ) → StaysGone (requests.write_eof id) }
    ensures drain { (yielded : Bool) (next : ℕ) (whom : Handed)
        → StaysGoneWith (requests.drain yielded next whom) }
    ensures limits { (high low : Option ℤ) (whom : Handed)
        → StaysGoneWith (requests.limits high low whom) }
    ensures close { (whom : Handed) → StaysGone (requests.close whom) }
    ensures drop_connect { (id : ℕ) → StaysGone (requests.drop_connect id) }
    ensures read { (next : ℕ) (op : ReadOp) (from : StreamReader)
        → StaysGoneWith (requests.read next op from) }
    ensures read_all { (next : ℕ) (from : StreamReader)
        → StaysGoneWith (requests.read_all next from) }
    ensures give_up { (on : ℕ) (from : StreamReader) (one : Opened) (s : Streams)
        → is_gone one s ≡ true → is_gone one (requests.give_up_read on from s) ≡ true }
    ensures wait { (next id : ℕ) → StaysGoneWith (requests.wait next id) }
    ensures kill { (id : ℕ) → StaysGone (requests.kill id) }
{}

/// What was opened stays in each request, in order of opening.
pub fn requests_keep_order()
    ensures write { (whom : Handed) (piece : List ℕ) → GrowsWith (requests.write whom piece) }
    ensures write_eof { (id : ℕ) → Grows (requests.write_eof id) }
    ensures drain { (yielded : Bool) (next : ℕ) (whom : Handed)
        → GrowsWith (requests.drain yielded next whom) }
    ensures limits { (high low : Option ℤ) (whom : Handed)
        → GrowsWith (requests.limits high low whom) }
    ensures close { (whom : Handed) → Grows (requests.close whom) }
    ensures drop_connect { (id : ℕ) → Grows (requests.drop_connect id) }
    ensures read { (next : ℕ) (op : ReadOp) (from : StreamReader)
        → GrowsWith (requests.read next op from) }
    ensures read_all { (next : ℕ) (from : StreamReader)
        → GrowsWith (requests.read_all next from) }
    ensures give_up { (on : ℕ) (from : StreamReader) (s : Streams)
        → Grown s (requests.give_up_read on from s) }
    ensures wait { (next id : ℕ) → GrowsWith (requests.wait next id) }
    ensures kill { (id : ℕ) → Grows (requests.kill id) }
{}
