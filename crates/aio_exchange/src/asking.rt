//! One ask.
ghost use Rattle.std.specs.Prelude.{◌≡◌};
ghost use Rattle.aio_wire.specs.Port.{ported};
ghost use Rattle.aio_exchange.specs.Exchanged.{AsksOne};

use aio_wire::{Answer, Call, Port, Stop, Wire};
use std::alloc::Global;

/// Asks the port once. All that the port says of it stands in one record.
pub fn ask<W: Wire>(port: &mut Port<W>, alloc: Global, call: Call) -> Result<Answer, Stop>
    ensures wire_name { port.new.wire.ghost_name ≡ port.old.wire.ghost_name }
    ensures events_name { port.new.events.ghost_name ≡ port.old.events.ghost_name }
    ensures asks { AsksOne W.outside call
        (ported port.old.wire.now port.old.events.now)
        (ported port.new.wire.now port.new.events.now) result }
{
    port.ask(alloc, call)
}
