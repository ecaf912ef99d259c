//! Laws of events. Each function has no body: its clauses are the laws.
ghost use Rattle.std.specs.Prelude.{◌≡◌, ℕ, Option};
ghost use Rattle.model_wire.specs.Event.{Event};
ghost use Rattle.model_machine.specs.State.{State, noted};
ghost use Rattle.aio_wire.specs.EventList.{EventList};
ghost use Rattle.aio_wire.specs.Events.{pushed};
ghost use Rattle.aio_body.specs.Stands.{Context, Stands};
ghost use Rattle.aio_body.specs.declared.run_state.RunState.{RunState};

use aio_extra::Extra;

/// An event that is pushed is one event more of the state.
pub fn an_event_more_is_noted<X: Extra>()
    ensures { (out : Option ℕ) (c : Context X.added) (body : RunState X) (s : State X.added.Kept)
        (it : Event) (events : EventList)
        → events ≡ pushed body.events it → Stands out c body s
        → Stands out c (record body { events = events }) (noted it s) }
{}
