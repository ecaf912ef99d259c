//! Connections and children. Each function has no body: its clauses are the law.
ghost use Rattle.std.specs.Prelude.{◌≡◌, ℕ, ℤ, Bool, List, Option};
ghost use Rattle.model_pump.specs.declared.stream.Stream.{Stream};
ghost use Rattle.model_value.specs.declared.action.ChildItem.{ChildItem};
ghost use Rattle.model_value.specs.declared.action.ChildItem.TheVariants.{Broken};
ghost use Rattle.model_wire.specs.declared.event.Handed.TheVariants as to;
ghost use Rattle.model_stream.specs.Children as child;
ghost use Rattle.model_stream.specs.Children.{Child, its_pipe};
ghost use Rattle.model_stream.specs.Connections as connection;
ghost use Rattle.model_stream.specs.Connections.{Connection, its_receiver};
ghost use Rattle.model_stream.specs.Doing.{asked_on};
ghost use Rattle.model_stream.specs.Reading.{ReadOp};
ghost use Rattle.model_stream.specs.Receivers as receiver;
ghost use Rattle.law_order.specs.Frames.{IsFramed};
ghost use Rattle.law_order.specs.Mild.{IsMild};

/// Whatever a connection does is no matter of another, nor of a child.
pub fn connections_are_no_matter_of_others()
    ensures reads { (id : ℕ) (c : Connection)
        → IsFramed (to.Conn id) (connection.readable id c) }
    ensures sends { (id : ℕ) (c : Connection)
        → IsFramed (to.Conn id) (connection.writable id c) }
    ensures stands { (id : ℕ) (c : Connection) → IsFramed (to.Conn id) (connection.up id c) }
    ensures falls { (id : ℕ) (c : Connection) → IsFramed (to.Conn id) (connection.down id c) }
    ensures loses { (id : ℕ) (broken : Bool) (c : Connection)
        → IsFramed (to.Conn id) (connection.lose id broken c) }
    ensures closes { (id : ℕ) (c : Connection) → IsFramed (to.Conn id) (connection.close id c) }
    ensures handled { (id : ℕ) (returned : Bool) (c : Connection)
        → IsFramed (to.Conn id) (connection.handler_done id returned c) }
    ensures drops { (id : ℕ) (c : Connection)
        → IsFramed (to.Conn id) (connection.drop_connect id c) }
    ensures writes { (id : ℕ) (piece : List ℕ) (c : Connection)
        → IsFramed (to.Conn id) (connection.write_to id piece c) }
    ensures ends { (id : ℕ) (c : Connection)
        → IsFramed (to.Conn id) (connection.write_eof id c) }
    ensures drains { (id : ℕ) (yielded : Bool) (next : ℕ) (c : Connection)
        → IsFramed (to.Conn id) (connection.drain_of yielded next c) }
    ensures limits { (id : ℕ) (high low : Option ℤ) (c : Connection)
        → IsFramed (to.Conn id) (connection.limits_of high low c) }
    ensures takes { (id next : ℕ) (op : ReadOp) (c : Connection)
        → IsFramed (to.Conn id) (asked_on its_receiver (receiver.read next op) c) }
    ensures takes_all { (id next : ℕ) (c : Connection)
        → IsFramed (to.Conn id) (asked_on its_receiver (receiver.read_all next) c) }
{}

/// So it is with whatever a child does.
pub fn children_are_no_matter_of_others()
    ensures sends { (id : ℕ) (p : Child) → IsFramed (to.Child id) (child.feed_more id p) }
    ensures told { (id : ℕ) (item : ChildItem (List ℕ)) (p : Child)
        → IsFramed (to.Child id) (child.tell_child id item p) }
    ensures loses { (id : ℕ) (broken : Bool) (p : Child)
        → IsFramed (to.Child id) (child.lose_child id broken p) }
    ensures closes { (id : ℕ) (p : Child) → IsFramed (to.Child id) (child.close_child id p) }
    ensures writes { (id : ℕ) (piece : List ℕ) (p : Child)
        → IsFramed (to.Child id) (child.write_child id piece p) }
    ensures drains { (id : ℕ) (yielded : Bool) (next : ℕ) (p : Child)
        → IsFramed (to.Child id) (child.drain_child yielded next p) }
    ensures limits { (id : ℕ) (high low : Option ℤ) (p : Child)
        → IsFramed (to.Child id) (child.limits_child high low p) }
    ensures waits { (id next : ℕ) (p : Child)
        → IsFramed (to.Child id) (child.wait_child next p) }
    ensures kills { (id : ℕ) (p : Child) → IsFramed (to.Child id) (child.kill id p) }
    ensures takes { (id : ℕ) (pipe : Stream) (next : ℕ) (op : ReadOp) (p : Child)
        → IsFramed (to.Child id) (asked_on (its_pipe pipe) (receiver.read next op) p) }
    ensures takes_all { (id : ℕ) (pipe : Stream) (next : ℕ) (p : Child)
        → IsFramed (to.Child id) (asked_on (its_pipe pipe) (receiver.read_all next) p) }
{}

/// Whatever a connection does but a close schedules no loss without an exception. Where it closes,
/// nothing is unsent (`losses_without_exception_drop_nothing` of `law_stream`).
pub fn connections_end_well_by_a_close_alone()
    ensures reads { (id : ℕ) (c : Connection) → IsMild (connection.readable id c) }
    ensures sends { (id : ℕ) (c : Connection) → IsMild (connection.writable id c) }
    ensures stands { (id : ℕ) (c : Connection) → IsMild (connection.up id c) }
    ensures falls { (id : ℕ) (c : Connection) → IsMild (connection.down id c) }
    ensures loses { (id : ℕ) (broken : Bool) (c : Connection)
        → IsMild (connection.lose id broken c) }
    ensures writes { (id : ℕ) (piece : List ℕ) (c : Connection)
        → IsMild (connection.write_to id piece c) }
    ensures ends { (id : ℕ) (c : Connection) → IsMild (connection.write_eof id c) }
    ensures drains { (id : ℕ) (yielded : Bool) (next : ℕ) (c : Connection)
        → IsMild (connection.drain_of yielded next c) }
    ensures limits { (high low : Option ℤ) (c : Connection)
        → IsMild (connection.limits_of high low c) }
    ensures takes { (next : ℕ) (op : ReadOp) (c : Connection)
        → IsMild (asked_on its_receiver (receiver.read next op) c) }
    ensures takes_all { (next : ℕ) (c : Connection)
        → IsMild (asked_on its_receiver (receiver.read_all next) c) }
{}

/// So it is with whatever a child does but a close, and but that its standard input breaks.
pub fn children_end_well_by_a_close_alone()
    ensures sends { (id : ℕ) (p : Child) → IsMild (child.feed_more id p) }
    ensures told { (id : ℕ) (item : ChildItem (List ℕ)) (p : Child) → (item ≡ Broken → ⊥)
        → IsMild (child.tell_child id item p) }
    ensures loses { (id : ℕ) (broken : Bool) (p : Child)
        → IsMild (child.lose_child id broken p) }
    ensures writes { (id : ℕ) (piece : List ℕ) (p : Child)
        → IsMild (child.write_child id piece p) }
    ensures drains { (id : ℕ) (yielded : Bool) (next : ℕ) (p : Child)
        → IsMild (child.drain_child yielded next p) }
    ensures limits { (high low : Option ℤ) (p : Child)
        → IsMild (child.limits_child high low p) }
    ensures waits { (next : ℕ) (p : Child) → IsMild (child.wait_child next p) }
    ensures kills { (id : ℕ) (p : Child) → IsMild (child.kill id p) }
    ensures takes { (pipe : Stream) (next : ℕ) (op : ReadOp) (p : Child)
        → IsMild (asked_on (its_pipe pipe) (receiver.read next op) p) }
    ensures takes_all { (pipe : Stream) (next : ℕ) (p : Child)
        → IsMild (asked_on (its_pipe pipe) (receiver.read_all next) p) }
{}
