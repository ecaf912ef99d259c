//! Where the loop asks the outside.
ghost use Rattle.std.specs.Prelude.{◌≡◌, IfOk, OnOk, OnErr};
ghost use Rattle.model_wire.specs.declared.event.Event.TheVariants as event;
ghost use Rattle.model_wire.specs.Fits.{fits};
ghost use Rattle.aio_wire.specs.Events.{pushed};
ghost use Rattle.aio_wire.specs.Port.{PortAsked, ported};

use crate::call::{Answer, Call};
use crate::copying::{copy_of_answer, copy_of_call};
use crate::event::{Event, Events};
use crate::fitting::fits;
use crate::stop::Stop;
use crate::wire::{Reply, Wire};
use aio_base::Memory;
use std::alloc::Global;

/// A wire with the events of the run that asks it. It keeps its two borrows while it stands.
pub struct Port<'a, W> {
    pub wire: &'a mut W,
    pub events: &'a mut Events,
}

impl<'a, W> Drop for Port<'a, W> {
    fn drop(self)
        ensures wire { self.exit.0.now ≡ self.entry.wire.now }
        ensures events { self.exit.1.0.now ≡ self.entry.events.now }
    {
        let Port { wire: _, events: _ } = self;
    }
}

impl<'a, W: Wire> Port<'a, W> {
    /// A port over a wire, which notes each call and answer in `events`.
    pub fn new(wire: &'a mut W, events: &'a mut Events) -> Port<'a, W>
        ensures wire { result.wire.now ≡ wire.old }
        ensures wire_name { result.wire.ghost_name ≡ wire.entry.ghost_name }
        ensures events { result.events.now ≡ events.old }
        ensures events_name { result.events.ghost_name ≡ events.entry.ghost_name }
    {
        Port { wire, events }
    }

    /// Asks the wire once. The call is noted, and the answer too, whether it fits or not.
    pub fn ask(&mut self, alloc: Global, call: Call) -> Result<Answer, Stop>
        ensures wire_name { self.new.wire.ghost_name ≡ self.old.wire.ghost_name }
        ensures events_name { self.new.events.ghost_name ≡ self.old.events.ghost_name }
        ensures asked { PortAsked W.outside call (ported self.old.wire.now self.old.events.now)
            (ported self.new.wire.now self.new.events.now) result }
    {
        note_call(alloc, self.events, &call)?;
        match self.wire.ask(alloc, &call)? {
            Reply::Got(answer) => match note_answer(alloc, self.events, &call, &answer) {
                Ok(true) => Ok(answer),
                Ok(false) => Err(Stop::Mismatch(self.events.answers(), call)),
                Err(Memory) => Err(Stop::Memory),
            },
            Reply::Over => Err(Stop::Over(call)),
            Reply::Bad(fault) => Err(Stop::Bad(fault)),
            Reply::Failed => Err(Stop::Failed(call)),
        }
    }
}

// Notes a call.
fn note_call(alloc: Global, events: &mut Events, call: &Call) -> Result<(), Memory>
    ensures noted { OnOk result (events.new ≡ pushed events.old (event.Called call.now)) }
    ensures none { OnErr result (events.new ≡ events.old) }
{
    let noted = copy_of_call(alloc, call)?;
    events.push(Event::Called(noted))
}

// Notes an answer, and says whether it fits.
fn note_answer(
    alloc: Global,
    events: &mut Events,
    call: &Call,
    answer: &Answer,
) -> Result<bool, Memory>
    ensures fits { IfOk result (λ it_fits. it_fits ≡ fits call.now answer.now) }
    ensures noted { OnOk result (events.new ≡ pushed events.old (event.Got answer.now)) }
    ensures none { OnErr result (events.new ≡ events.old) }
{
    let it_fits = fits(alloc, call, answer)?;
    let noted = copy_of_answer(alloc, answer)?;
    events.push(Event::Got(noted))?;
    Ok(it_fits)
}
