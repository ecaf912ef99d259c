//! Connections and children.
ghost use Rattle.std.specs.Prelude.{◌≡◌, ℕ, ℤ, Bool, true, if◌then◌else◌, List, [], Option};
ghost use Rattle.model_stream.specs.declared.answers.Wrote.{Wrote};
ghost use Rattle.model_stream.specs.declared.put.Limited.{Limited};
ghost use Rattle.model_stream.specs.declared.phase.Phase.TheVariants.{Closing};
ghost use Rattle.model_stream.specs.Children.{Child, inlet, its_stdin, break_stdin};
ghost use Rattle.model_stream.specs.Connections.{Connection, close, drain_of, flushed, handler_done, limits_of, lose, readable, writable, write_eof, write_to};
ghost use Rattle.model_stream.specs.Doing.{Ends, on};
ghost use Rattle.model_stream.specs.Senders.{Sender, Outlet, Drain, has_unsent, is_closing, close_sender, fail_sender};
ghost use Rattle.model_stream.specs.Sending.{put_answer, written_of};
ghost use Rattle.law_stream.specs.SoundSenders.{AnsweringConnection, IsSoundSender, KeepsConnection, MayLose};
ghost use Rattle.law_stream.specs.Ways.{Always, Move};
ghost use Rattle.law_stream.specs.ConnectionSteps.{ConnectionComes};

/// A loss comes without an exception only where nothing is unsent: closing waits for what is
/// unsent, a closing connection is lost in the callback of its last send, and a child's standard
/// input that breaks before fails.
pub fn losses_without_exception_drop_nothing()
    ensures closes { (outlet : Outlet) (s : Sender) → has_unsent s ≡ true → close_sender outlet s
        ≡ Ends (if is_closing s then s else record s { phase = Closing }) }
    ensures sends { (id : ℕ) (c : Connection) → has_unsent c.sender ≡ true → flushed id c ≡ Ends c }
    ensures breaks { (id : ℕ) (p : Child) → has_unsent p.stdin ≡ true → break_stdin id p
        ≡ on its_stdin (fail_sender (inlet id)) p }
{}

/// Whatever a connection does while it stands keeps its sender so, whichever answers come. The loss
/// is the callback that was scheduled, or comes with the last send.
pub fn operations_keep_connections()
    ensures reads { (id : ℕ) (c : Connection) → IsSoundSender c.sender
        → Always (KeepsConnection id 0 [] c) (readable id c) }
    ensures sends { (id : ℕ) (c : Connection) → IsSoundSender c.sender
        → Always (KeepsConnection id 0 [] c) (writable id c) }
    ensures loses { (id ran : ℕ) (broken : Bool) (c : Connection) → IsSoundSender c.sender
        → MayLose ran broken c.sender
        → Always (KeepsConnection id ran [] c) (lose id broken c) }
    ensures closes { (id : ℕ) (c : Connection) → IsSoundSender c.sender
        → Always (KeepsConnection id 0 [] c) (close id c) }
    ensures handled { (id : ℕ) (returned : Bool) (c : Connection) → IsSoundSender c.sender
        → Always (KeepsConnection id 0 [] c) (handler_done id returned c) }
    ensures ends { (id : ℕ) (c : Connection) → IsSoundSender c.sender
        → Always (KeepsConnection id 0 [] c) (write_eof id c) }
    ensures writes { (id : ℕ) (piece : List ℕ) (c : Connection) → IsSoundSender c.sender
        → Always
        (AnsweringConnection {R = Wrote}
        (KeepsConnection id 0 (written_of (put_answer piece c.sender.writer) piece) c))
        (write_to id piece c) }
    ensures drains { (id : ℕ) (yielded : Bool) (next : ℕ) (c : Connection)
        → IsSoundSender c.sender
        → Always (AnsweringConnection {R = Drain} (KeepsConnection id 0 [] c))
        (drain_of yielded next c) }
    ensures limits { (id : ℕ) (high low : Option ℤ) (c : Connection) → IsSoundSender c.sender
        → Always (AnsweringConnection {R = Limited} (KeepsConnection id 0 [] c))
        (limits_of high low c) }
{}

/// So after any row of what a connection does, reads with it: what was handed on is a front of what
/// was written, in order, and what is unsent is the rest, unless a loss dropped it.
pub fn connections_keep_order()
    ensures { (id : ℕ) (c : Connection) (ran : ℕ) (written : List ℕ) (moves : List Move)
        (after : Connection) → IsSoundSender c.sender → ConnectionComes id c ran written moves after
        → KeepsConnection id ran written c moves after }
{}
