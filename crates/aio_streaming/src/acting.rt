//! What callbacks of listeners, connections and children do.
ghost use Rattle.std.specs.Prelude.{◌≡◌, true, None, length};
ghost use Rattle.std.specs.Option.{option_copied};
ghost use Rattle.model_value.specs.declared.action.Action.TheVariants as action;
ghost use Rattle.model_stream.specs.Streams as plain;
ghost use Rattle.model_machine.specs.Turn.{is_returned};
ghost use Rattle.aio_wire.specs.Port.{ported};
ghost use Rattle.aio_exchange.specs.Follows.{reach};
ghost use Rattle.aio_task.specs.View.{parts};
ghost use Rattle.aio_transports.specs.Owned.{OwnsTransports};
ghost use Rattle.aio_transports.specs.Standing.{Comes as Changes};
ghost use Rattle.aio_body.specs.Asking.{Comes};
ghost use Rattle.aio_body.specs.Stands.{Possible};
ghost use Rattle.aio_body.specs.Taken.{IsTaken};
ghost use Rattle.aio_streaming.specs.Acting.{Acts, acting, is_of_streams, returned_in};

use aio_base::{Action, Memory, Outcome, Value, ValueList};
use aio_body::{MOST_IDS, RunState};
use aio_extra::Extra;
use aio_task::Ticket;
use aio_wire::{Port, Stop, Wire};
use model_wire::Handed;
use std::alloc::Global;

/// A callback but `made`. Of a handler that is done it goes by how its task ended.
pub fn act<W: Wire, X: Extra>(
    body: &mut RunState<X>,
    alloc: Global,
    wire: &mut W,
    action: &Action,
) -> Result<(), Stop>
    requires taken { Possible X.added (IsTaken action.now) body.old }
    requires of_streams { is_of_streams action.now ≡ true }
    ensures comes { Comes W.outside (acting X.added action.now body.old body.new)
        (ported wire.old body.old.events) (ported wire.new body.new.events) result }
{
    let returned = has_returned(body, action);
    run(body, alloc, wire, action, returned)
}

// It runs, through a port on the wire and the body's events.
fn run<W: Wire, X: Extra>(
    body: &mut RunState<X>,
    alloc: Global,
    wire: &mut W,
    action: &Action,
    returned: bool,
) -> Result<(), Stop>
    requires idle { body.old.parts.called ≡ None }
    requires own { OwnsTransports body.old.parts body.old.transports }
    ensures frame { body.new ≡ record body.old {
      parts = body.new.parts;
      events = body.new.events;
      transports = body.new.transports;
    } }
    ensures comes { Changes W.outside
        (plain.act (length body.old.parts.futures) returned action.now)
        body.old.transports body.new.transports
        (reach body.old.parts wire.old body.old.events)
        (reach body.new.parts wire.new body.new.events) result }
{
    let mut port = Port::new(wire, &mut body.events);
    body.transports
        .act(alloc, action, returned, &mut port, &mut body.parts)
}

// What a callback goes by: of a handler that is done, whether its task neither failed nor was
// cancelled.
fn has_returned<X: Extra>(body: &RunState<X>, action: &Action) -> bool
    ensures { result ≡ returned_in (parts body.now.parts) action.now }
{
    match action {
        Action::HandlerDone { conn: _, task } => {
            is_returned(body.parts.outcome(body.parts.future_of(*task)))
        }
        Action::Step(_)
        | Action::StepInCycle { task: _, cycle: _ }
        | Action::Wakeup(_)
        | Action::SleepDone { task: _, future: _ }
        | Action::GroupDone { group: _, task: _ }
        | Action::Fires(_)
        | Action::MainDone
        | Action::Made(_)
        | Action::StartRead(_)
        | Action::Lost { conn: _, broken: _ }
        | Action::ReadableServer(_)
        | Action::Readable(_)
        | Action::Writable(_)
        | Action::Up(_)
        | Action::Down(_)
        | Action::WritableChild(_)
        | Action::ChildItem { child: _, item: _ }
        | Action::LostChild {
            child: _,
            broken: _,
        }
        | Action::ExtraItem { code: _, bytes: _ }
        | Action::Extra(_) => true,
    }
}

fn is_returned(outcome: Option<&Outcome>) -> bool
    ensures { result ≡ is_returned (option_copied outcome.entry) }
{
    match outcome {
        Some(Outcome::Value(_)) => true,
        Some(Outcome::Failed(_)) => false,
        Some(Outcome::Cancelled) => false,
        None => false,
    }
}

/// `made`: the handler of a connection that was accepted is started, with the connection as its
/// argument. Where no more tasks can be numbered, the connection is closed.
pub fn made<X: Extra>(body: &mut RunState<X>, alloc: Global, conn: u32) -> Result<(), Memory>
    requires { Possible X.added (IsTaken (action.Made conn)) body.old }
    ensures { Acts X.added (action.Made conn) body.old body.new result }
{
    let Some(coroutine) = body.transports.handler_of(conn) else {
        return Ok(());
    };
    if body.slots.len() >= MOST_IDS {
        return body
            .transports
            .close(alloc, Handed::Conn(conn), &mut body.parts);
    }
    let mut items = Vec::new(alloc);
    items.push(Value::conn(conn))?;
    body.hold(alloc, coroutine, &ValueList::of(items))?;
    let ticket = body.parts.ticket(alloc)?;
    match body.parts.spawn(alloc) {
        Ok(task) => {
            let own = body.parts.future_of(task);
            body.parts
                .on_done(own, ticket, Action::HandlerDone { conn, task });
            Ok(())
        }
        Err(Memory) => {
            forget_ticket(ticket);
            Err(Memory)
        }
    }
}

// Memory that nothing is made of.
fn forget_ticket(_ticket: Ticket) {}
