//! Laws of asks. Each function has no body: its clauses are the laws.
ghost use Rattle.std.specs.Prelude.{◌≡◌, [], ◌++◌, List};
ghost use Rattle.model_wire.specs.Event.{Event};
ghost use Rattle.aio_wire.specs.Port.{Ported};
ghost use Rattle.aio_exchange.specs.Among.{AreTold, ExchangedOn};
ghost use Rattle.aio_exchange.specs.Exchanged.{Exchange, Exchanged, Last, All, Starved};

use aio_wire::Wire;

/// Asks go one after another: what the first did and what the others did, they did together. None
/// is no ask, and memory may be refused after them.
pub fn asks_go_on<W: Wire>()
    ensures none { (at : Ported W) → Exchanged W.outside [] All at at }
    ensures more { (first others : List Exchange) (last : Last) (old between new : Ported W)
        → Exchanged W.outside first All old between
        → Exchanged W.outside others last between new
        → Exchanged W.outside (first ++ others) last old new }
    ensures starved { (had : List Exchange) (old new : Ported W)
        → Exchanged W.outside had All old new
        → Exchanged W.outside had Starved old new }
{}

/// So do asks among other things: of the wire, and of the events. Asks through one port are such
/// asks of its wire.
pub fn asks_go_on_among_others<W: Wire>()
    ensures wire { (first others : List Exchange) (last : Last) (old between new : W)
        → ExchangedOn W.outside first All old between
        → ExchangedOn W.outside others last between new
        → ExchangedOn W.outside (first ++ others) last old new }
    ensures port { (had : List Exchange) (last : Last) (old new : Ported W)
        → Exchanged W.outside had last old new
        → ExchangedOn W.outside had last old.wire new.wire }
    ensures events { (first others : List Exchange) (last : Last) (old between new : List Event)
        → AreTold first All old between → AreTold others last between new
        → AreTold (first ++ others) last old new }
{}
