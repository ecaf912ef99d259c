//! Laws of the events of a port. Each function has no body: its clauses are the laws.
ghost use Rattle.std.specs.Prelude.{◌≡◌, List};
ghost use Rattle.model_wire.specs.Call.{Call as AnyCall};
ghost use Rattle.aio_exchange.specs.Exchanged.{All, Exchange, Met, Notes, StopsAs};
ghost use Rattle.aio_wire.specs.EventList.{EventList};
ghost use Rattle.aio_wire.specs.declared.stop.Stop.{Stop as AnyStop};
ghost use Rattle.aio_wire.specs.declared.wire.Reply.{Reply as AnyReply};

/// The events that a port notes tell which calls had which answers. Where one more call had no
/// answer that fits, they and the stop tell that too.
pub fn events_tell_what_was_had()
    ensures all { (some others : List Exchange) (old new : EventList) → Notes some All old new
        → Notes others All old new → some ≡ others }
    ensures met { (some others : List Exchange) (call other : AnyCall) (said told : AnyReply)
        (why : AnyStop) (old new : EventList) → Notes some (Met call said) old new
        → Notes others (Met other told) old new → StopsAs (Met call said) new.answers why
        → StopsAs (Met other told) new.answers why
        → (some ≡ others) × ((call ≡ other) × (said ≡ told)) }
{}
