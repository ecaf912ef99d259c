//! Requests. Each function has no body: its clauses are the laws. `own` tells the futures that were
//! kept before and how many connections there were, and `next` is the number of the future that is
//! made next.
ghost use Rattle.std.specs.Prelude.{ℕ, ℤ, Bool, List, Option, length};
ghost use Rattle.model_wire.specs.declared.event.Handed.{Handed};
ghost use Rattle.model_stream.specs.declared.answers.Wrote.{Wrote};
ghost use Rattle.model_stream.specs.declared.put.Limited.{Limited};
ghost use Rattle.model_stream.specs.Reading.{ReadOp};
ghost use Rattle.model_stream.specs.Requests.{StreamReader, write, drain, limits, write_eof, close, drop_connect, read, read_all, give_up_read, wait, kill};
ghost use Rattle.model_stream.specs.Streams.{Streams, connect, launch, listen, close_server};
ghost use Rattle.model_stream.specs.Kept.{StreamsKeep};
ghost use Rattle.law_cases.specs.Trees.{AllWaits, AnswersStreams, ConnectsStreams, DrainWaits, ExitWaits, IsOwn};
ghost use Rattle.law_cases.specs.Trees.{Keeping, KeepsStreams, OpensStreams, Owned, ReadWaits, WaitsNever};

/// So does each request on what is open, and each that opens something. A future that a task is to
/// wait on was made in it, and the number of what was opened is one of those that there are then.
pub fn requests_settle_what_was_kept()
    ensures listens { (own : Owned) (next port handler : ℕ) (s : Streams)
        → StreamsKeep (IsOwn own) s
        → Keeping (OpensStreams (λ it. length it.servers) own next s) own next
        (listen port handler s) }
    ensures connects { (own : Owned) (next port : ℕ) (s : Streams) → StreamsKeep (IsOwn own) s
        → Keeping (ConnectsStreams own next s) own next (connect port next s) }
    ensures launches { (own : Owned) (next : ℕ) (words : List (List ℕ)) (s : Streams)
        → StreamsKeep (IsOwn own) s
        → Keeping (OpensStreams (λ it. length it.children) own next s) own next
        (launch words next s) }
    ensures writes { (own : Owned) (next : ℕ) (whom : Handed) (piece : List ℕ) (s : Streams)
        → StreamsKeep (IsOwn own) s
        → Keeping (AnswersStreams {R = Wrote} WaitsNever own next s) own next (write whom piece s) }
    ensures drains { (own : Owned) (next : ℕ) (yielded : Bool) (whom : Handed) (s : Streams)
        → StreamsKeep (IsOwn own) s
        → Keeping (AnswersStreams DrainWaits own next s) own next (drain yielded next whom s) }
    ensures limits { (own : Owned) (next : ℕ) (high low : Option ℤ) (whom : Handed)
        (s : Streams)
        → StreamsKeep (IsOwn own) s
        → Keeping (AnswersStreams {R = Limited} WaitsNever own next s) own next
        (limits high low whom s) }
    ensures ends { (own : Owned) (next id : ℕ) (s : Streams) → StreamsKeep (IsOwn own) s
        → Keeping (KeepsStreams own next s) own next (write_eof id s) }
    ensures closes { (own : Owned) (next : ℕ) (whom : Handed) (s : Streams)
        → StreamsKeep (IsOwn own) s
        → Keeping (KeepsStreams own next s) own next (close whom s) }
    ensures closes_server { (own : Owned) (next id : ℕ) (s : Streams)
        → StreamsKeep (IsOwn own) s
        → Keeping (KeepsStreams own next s) own next (close_server id s) }
    ensures drops { (own : Owned) (next id : ℕ) (s : Streams) → StreamsKeep (IsOwn own) s
        → Keeping (KeepsStreams own next s) own next (drop_connect id s) }
    ensures reads { (own : Owned) (next : ℕ) (op : ReadOp) (from : StreamReader) (s : Streams)
        → StreamsKeep (IsOwn own) s
        → Keeping (AnswersStreams ReadWaits own next s) own next (read next op from s) }
    ensures reads_all { (own : Owned) (next : ℕ) (from : StreamReader) (s : Streams)
        → StreamsKeep (IsOwn own) s
        → Keeping (AnswersStreams AllWaits own next s) own next (read_all next from s) }
    ensures gives_up { (own : Owned) (on : ℕ) (from : StreamReader) (s : Streams)
        → StreamsKeep (IsOwn own) s → StreamsKeep (IsOwn own) (give_up_read on from s) }
    ensures gives_up_alone { (own : Owned) (next on : ℕ) (from : StreamReader) (s : Streams)
        → StreamsKeep (IsOwn own) s → KeepsStreams own next s next (give_up_read on from s) }
    ensures waits { (own : Owned) (next id : ℕ) (s : Streams) → StreamsKeep (IsOwn own) s
        → Keeping (AnswersStreams ExitWaits own next s) own next (wait next id s) }
    ensures kills { (own : Owned) (next id : ℕ) (s : Streams) → StreamsKeep (IsOwn own) s
        → Keeping (KeepsStreams own next s) own next (kill id s) }
{}
