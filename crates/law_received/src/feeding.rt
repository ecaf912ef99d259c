//! What is done to connections and children. Each function has no body: its clauses are the law.
ghost use Rattle.std.specs.Prelude.{ℕ, ℤ, Bool, List, [], Option, None};
ghost use Rattle.model_value.specs.Action.{Action};
ghost use Rattle.model_wire.specs.declared.event.Handed.{Handed};
ghost use Rattle.model_stream.specs.declared.answers.ChildWait.{ChildWait};
ghost use Rattle.model_stream.specs.declared.answers.Wrote.{Wrote};
ghost use Rattle.model_stream.specs.declared.put.Limited.{Limited};
ghost use Rattle.model_stream.specs.Reading.{ReadOp};
ghost use Rattle.model_stream.specs.Receivers.{AllGot, StreamGot};
ghost use Rattle.model_stream.specs.Requests as requests;
ghost use Rattle.model_stream.specs.Requests.{StreamReader};
ghost use Rattle.model_stream.specs.Senders.{Drain};
ghost use Rattle.model_stream.specs.Streams as plain;
ghost use Rattle.model_stream.specs.Streams.{Streams};
ghost use Rattle.law_stream.specs.Ways.{Always};
ghost use Rattle.law_stream.specs.ReceiverOrder.{went};
ghost use Rattle.law_received.specs.Readers.{held_of};
ghost use Rattle.law_received.specs.Feeding.{AreOnlyFed, IsLook, news_in};

/// Only reads take: whatever else is done, each reader holds then what it held and what it received
/// meanwhile, by an answer or by what a child told; but as it fails, that is let go.
pub fn only_reads_take()
    ensures acts { (next : ℕ) (returned : Bool) (it : Action) (s : Streams)
        → Always (AreOnlyFed (news_in it) s) (plain.act next returned it s) }
    ensures listens { (port handler : ℕ) (s : Streams)
        → Always {A = Streams × Option ℕ} (λ moves done. AreOnlyFed None s moves done.0)
        (plain.listen port handler s) }
    ensures closes_server { (id : ℕ) (s : Streams)
        → Always (AreOnlyFed None s) (plain.close_server id s) }
    ensures connects { (port next : ℕ) (s : Streams)
        → Always {A = Streams × Option (ℕ × ℕ)} (λ moves done. AreOnlyFed None s moves done.0)
        (plain.connect port next s) }
    ensures launches { (words : List (List ℕ)) (next : ℕ) (s : Streams)
        → Always {A = Streams × Option ℕ} (λ moves done. AreOnlyFed None s moves done.0)
        (plain.launch words next s) }
    ensures writes { (whom : Handed) (piece : List ℕ) (s : Streams)
        → Always {A = Streams × Wrote} (λ moves done. AreOnlyFed None s moves done.0)
        (requests.write whom piece s) }
    ensures ends { (id : ℕ) (s : Streams)
        → Always (AreOnlyFed None s) (requests.write_eof id s) }
    ensures drains { (yielded : Bool) (next : ℕ) (whom : Handed) (s : Streams)
        → Always {A = Streams × Drain} (λ moves done. AreOnlyFed None s moves done.0)
        (requests.drain yielded next whom s) }
    ensures limits { (high low : Option ℤ) (whom : Handed) (s : Streams)
        → Always {A = Streams × Limited} (λ moves done. AreOnlyFed None s moves done.0)
        (requests.limits high low whom s) }
    ensures closes { (whom : Handed) (s : Streams)
        → Always (AreOnlyFed None s) (requests.close whom s) }
    ensures drops { (id : ℕ) (s : Streams)
        → Always (AreOnlyFed None s) (requests.drop_connect id s) }
    ensures gives_up { (on : ℕ) (from : StreamReader) (s : Streams)
        → AreOnlyFed None s [] (requests.give_up_read on from s) }
    ensures waits { (next id : ℕ) (s : Streams)
        → Always {A = Streams × ChildWait} (λ moves done. AreOnlyFed None s moves done.0)
        (requests.wait next id s) }
    ensures kills { (id : ℕ) (s : Streams) → Always (AreOnlyFed None s) (requests.kill id s) }
{}

/// A look of a read takes a front of what its reader holds: the bytes that it gives, and with an
/// exception those that it removes. Others hold what they held. None fails by it, and of one that
/// failed nothing is taken. A look of a read with a negative count takes what stays with the read.
pub fn reads_take_fronts()
    ensures reads { (next : ℕ) (op : ReadOp) (from : StreamReader) (s : Streams)
        → Always {A = Streams × StreamGot}
        (λ moves done. IsLook from (went done.1 (held_of from s) (held_of from done.0)) s done.0)
        (requests.read next op from s) }
    ensures reads_all { (next : ℕ) (from : StreamReader) (s : Streams)
        → Always {A = Streams × AllGot} (λ moves done. IsLook from done.1.taken s done.0)
        (requests.read_all next from s) }
{}
