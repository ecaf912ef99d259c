//! How much a run did.
ghost use Rattle.std.specs.Prelude.{◌≡◌, ◌+◌};
ghost use Rattle.std.specs.List.{count_by};
ghost use Rattle.model_commands.specs.Works.{counted, is_call, is_said};

use aio_wire::Event;

/// How much a run did so far. Of more than 18,446,744,073,709,551,615 calls or lines it says that
/// there are so many.
#[derive(Clone, Copy, PartialEq, Eq)]
pub struct Counts {
    /// How many tasks were made, main among them.
    pub tasks: u32,
    /// How many calls were asked.
    pub calls: u64,
    /// How many lines tasks printed.
    pub said: u64,
}

impl Counts {
    /// Adds the calls of events, and the lines that were printed.
    pub fn add(&mut self, events: &[Event])
        ensures tasks { self.new.tasks ≡ self.old.tasks }
        ensures calls { self.new.calls ≡ counted (self.old.calls + count_by is_call events.now) }
        ensures said { self.new.said ≡ counted (self.old.said + count_by is_said events.now) }
    {
        self.calls = self.calls.saturating_add(calls_in(events));
        self.said = self.said.saturating_add(said_in(events));
    }
}

fn calls_in(events: &[Event]) -> u64
    ensures { result ≡ counted (count_by is_call events.now) }
{
    let mut count: u64 = 0;
    for event in events {
        count = count.saturating_add(u64::from(is_call(event)));
    }
    count
}

fn said_in(events: &[Event]) -> u64
    ensures { result ≡ counted (count_by is_said events.now) }
{
    let mut count: u64 = 0;
    for event in events {
        count = count.saturating_add(u64::from(is_said(event)));
    }
    count
}

fn is_call(event: &Event) -> bool
    ensures { result ≡ is_call event.now }
{
    matches!(event, Event::Called(_))
}

fn is_said(event: &Event) -> bool
    ensures { result ≡ is_said event.now }
{
    matches!(event, Event::Said { .. })
}
