//! Connections and children. Each function has no body: its clauses are the law.
ghost use Rattle.std.specs.Prelude.{ℕ, ℤ, Bool, List, Option};
ghost use Rattle.model_stream.specs.declared.answers.ChildWait.{ChildWait};
ghost use Rattle.model_stream.specs.declared.answers.Wrote.{Wrote};
ghost use Rattle.model_stream.specs.Children as child;
ghost use Rattle.model_stream.specs.Children.{Child};
ghost use Rattle.model_stream.specs.Connections as connection;
ghost use Rattle.model_stream.specs.Connections.{Connection};
ghost use Rattle.model_stream.specs.Senders.{Drain};
ghost use Rattle.law_received.specs.Calm.{Apart, LostConn, SameChild, SameConn};

/// Whatever a connection does, but `readable` and reads: it asks to receive nothing, and its reader
/// holds what it held. By a loss with an exception its reader fails, and holds nothing then.
pub fn connections_let_readers_be()
    ensures sends { (id : ℕ) (c : Connection) → Apart (SameConn c) (connection.writable id c) }
    ensures loses { (id : ℕ) (broken : Bool) (c : Connection)
        → Apart (LostConn broken c) (connection.lose id broken c) }
    ensures stands { (id : ℕ) (c : Connection) → Apart (SameConn c) (connection.up id c) }
    ensures falls { (id : ℕ) (c : Connection) → Apart (SameConn c) (connection.down id c) }
    ensures closes { (id : ℕ) (c : Connection) → Apart (SameConn c) (connection.close id c) }
    ensures handled { (id : ℕ) (returned : Bool) (c : Connection)
        → Apart (SameConn c) (connection.handler_done id returned c) }
    ensures drops { (id : ℕ) (c : Connection)
        → Apart (SameConn c) (connection.drop_connect id c) }
    ensures ends { (id : ℕ) (c : Connection) → Apart (SameConn c) (connection.write_eof id c) }
    ensures writes { (id : ℕ) (piece : List ℕ) (c : Connection)
        → Apart {A = Connection × Wrote} (λ done. SameConn c done.0)
        (connection.write_to id piece c) }
    ensures drains { (id : ℕ) (yielded : Bool) (next : ℕ) (c : Connection)
        → Apart {A = Connection × Drain} (λ done. SameConn c done.0)
        (connection.drain_of yielded next c) }
{}

/// Whatever a child does, but where a pipe is told and reads: its pipes stay as they are.
pub fn children_let_readers_be()
    ensures sends { (id : ℕ) (p : Child) → Apart (SameChild p) (child.feed_more id p) }
    ensures loses { (id : ℕ) (broken : Bool) (p : Child)
        → Apart (SameChild p) (child.lose_child id broken p) }
    ensures breaks { (id : ℕ) (p : Child) → Apart (SameChild p) (child.break_stdin id p) }
    ensures exits { (code : ℤ) (p : Child) → Apart (SameChild p) (child.exit_with code p) }
    ensures closes { (id : ℕ) (p : Child) → Apart (SameChild p) (child.close_child id p) }
    ensures kills { (id : ℕ) (p : Child) → Apart (SameChild p) (child.kill id p) }
    ensures writes { (id : ℕ) (piece : List ℕ) (p : Child)
        → Apart {A = Child × Wrote} (λ done. SameChild p done.0)
        (child.write_child id piece p) }
    ensures drains { (yielded : Bool) (next : ℕ) (p : Child)
        → Apart {A = Child × Drain} (λ done. SameChild p done.0)
        (child.drain_child yielded next p) }
    ensures waits { (next : ℕ) (p : Child)
        → Apart {A = Child × ChildWait} (λ done. SameChild p done.0) (child.wait_child next p) }
{}
