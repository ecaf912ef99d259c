//! One connection, and one child. Each function has no body: its clauses are the law.
ghost use Rattle.std.specs.Prelude.{ℕ, Bool, List, []};
ghost use Rattle.model_value.specs.declared.action.ChildItem.{ChildItem};
ghost use Rattle.model_wire.specs.declared.event.Handed.TheVariants as to;
ghost use Rattle.model_stream.specs.Children.{Child, close_child, lose_child, tell_child};
ghost use Rattle.model_stream.specs.Connections.{Connection, close, down, drop_connect};
ghost use Rattle.model_stream.specs.Connections.{handler_done, lose, up};
ghost use Rattle.law_stream.specs.SoundSenders.{IsSoundSender};
ghost use Rattle.law_stream.specs.Ways.{Always};
ghost use Rattle.law_order.specs.Fronts.{Continues, KeepsChildBy, KeepsConnectionBy, Loses, MayGiveUp};

/// What may end a connection keeps its order: a close schedules a loss without an exception only
/// where all that was written was handed on. A loss that was scheduled is done whatever the
/// connection is; and one that is still being made may be given up.
pub fn connections_keep_their_order()
    ensures stands { (id : ℕ) (c : Connection) → IsSoundSender c.sender
        → Always (KeepsConnectionBy Continues id [] c) (up id c) }
    ensures falls { (id : ℕ) (c : Connection) → IsSoundSender c.sender
        → Always (KeepsConnectionBy (MayGiveUp id) id [] c) (down id c) }
    ensures drops { (id : ℕ) (c : Connection) → IsSoundSender c.sender
        → Always (KeepsConnectionBy (MayGiveUp id) id [] c) (drop_connect id c) }
    ensures closes { (id : ℕ) (c : Connection) → IsSoundSender c.sender
        → Always (KeepsConnectionBy Continues id [] c) (close id c) }
    ensures handled { (id : ℕ) (returned : Bool) (c : Connection) → IsSoundSender c.sender
        → Always (KeepsConnectionBy Continues id [] c) (handler_done id returned c) }
    ensures loses { (id : ℕ) (broken : Bool) (c : Connection) → IsSoundSender c.sender
        → Always (KeepsConnectionBy (Loses (to.Conn id) broken) id [] c) (lose id broken c) }
{}

/// So does a child: a standard input that breaks while something is unsent has an exception.
pub fn children_keep_their_order()
    ensures told { (id : ℕ) (item : ChildItem (List ℕ)) (p : Child) → IsSoundSender p.stdin
        → Always (KeepsChildBy Continues id [] p) (tell_child id item p) }
    ensures closes { (id : ℕ) (p : Child) → IsSoundSender p.stdin
        → Always (KeepsChildBy Continues id [] p) (close_child id p) }
    ensures loses { (id : ℕ) (broken : Bool) (p : Child) → IsSoundSender p.stdin
        → Always (KeepsChildBy (Loses (to.Child id) broken) id [] p) (lose_child id broken p) }
{}
