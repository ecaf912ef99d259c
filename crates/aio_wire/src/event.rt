//! What happens in a run.
ghost use Rattle.std.specs.Prelude.{◌≡◌, [], OnOk, OnErr};
ghost use Rattle.aio_wire.specs.Events.{pushed};

use crate::call::{Answer, Call};
use aio_base::{Action, Blob, Memory};
use std::alloc::Global;
use std::marker::Model;

/// What happens in a run: a call, an answer, a handle that ran, or a text that a task printed.
pub type Event = model_wire::Event<Call, Answer, Action, Blob>;

/// The events of a run that weren't taken out yet, in order, and how many answers the run has had
/// so far. Contracts see them as the list and the number.
#[derive(Drop)]
pub struct Events {
    list: Vec<Event>,
    answers: u64,
}

impl Model for Events {
    ghost use Rattle.aio_wire.specs.EventList.{EventList};

    ghost Value = { EventList };

    ghost view = { λ events. record { events = events.list.items; answers = events.answers } };
}

impl Events {
    /// The events of a run that begins: none, after no answer.
    pub fn new(alloc: Global) -> Events
        ensures { result ≡ record { events = []; answers = 0 } }
    {
        Events {
            list: Vec::new(alloc),
            answers: 0,
        }
    }

    /// The events that weren't taken out yet.
    pub fn items(&self) -> &[Event]
        ensures { result.now ≡ self.now.events }
    {
        self.list.as_slice()
    }

    /// How many answers the run has had, 18,446,744,073,709,551,615 where there are more.
    pub fn answers(&self) -> u64
        ensures { result ≡ self.now.answers }
    {
        self.answers
    }

    /// Adds an event; an answer is counted. Want of memory adds nothing.
    pub fn push(&mut self, event: Event) -> Result<(), Memory>
        ensures ok { OnOk result (self.new ≡ pushed self.old event) }
        ensures err { OnErr result (self.new ≡ self.old) }
    {
        let counted = matches!(event, Event::Got(_));
        self.list.push(event)?;
        if counted {
            self.answers = self.answers.saturating_add(1);
        }
        Ok(())
    }

    /// Takes the events out. The number of answers stays. It takes no memory.
    pub fn take(&mut self) -> Events
        ensures taken { result ≡ self.old }
        ensures left { self.new ≡ record self.old { events = [] } }
    {
        let alloc = *self.list.allocator();
        Events {
            list: std::mem::replace(&mut self.list, Vec::new(alloc)),
            answers: self.answers,
        }
    }
}
