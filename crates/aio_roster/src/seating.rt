//! Whose pump has a seat.
ghost use Rattle.std.specs.Prelude.{◌≡◌};
ghost use Rattle.model_hub.specs.Children.{pump_at, pump_of};

use model_hub::{Child, Pump, Seats, Stay};

fn pump_at(seat: u32, seats: &Seats) -> Option<Pump>
    ensures { result ≡ pump_at seat seats.now }
{
    if seat == seats.stdin {
        Some(Pump::Stdin)
    } else if seat == seats.out {
        Some(Pump::Out)
    } else if seat == seats.errs {
        Some(Pump::Errs)
    } else if seat == seats.exit {
        Some(Pump::Exit)
    } else {
        None
    }
}

/// The pump of this child to which the seat is lent.
pub(crate) fn pump_of(seat: u32, child: &Child) -> Option<Pump>
    ensures { result ≡ pump_of seat child.now }
{
    match child.stay {
        Stay::Running | Stay::Holding => pump_at(seat, &child.seats),
        Stay::Gone => None,
    }
}
