//! How children are launched.
ghost use Rattle.std.specs.Prelude.{◌≡◌, ◌<◌, ◌^◌, ◌++◌, ◌∷◌, [], true, None, OnOk, length, nat_lt};
ghost use Rattle.model_stream.specs.Answers.{is_child};
ghost use Rattle.model_stream.specs.Streams as plain;
ghost use Rattle.aio_exchange.specs.Follows.{reach};
ghost use Rattle.aio_children.specs.Owned.{OwnsChildren};
ghost use Rattle.aio_children.specs.Standing.{Launches};

use super::Children;
use aio_base::Memory;
use aio_change::make_future;
use aio_child::Child;
use aio_exchange::ask;
use aio_task::Parts;
use aio_wire::{Answer, Call, Port, Stop, Wire, WordList};
use std::alloc::Global;

impl Children {
    /// None was launched so far, and so many can be numbered.
    pub fn new(alloc: Global, most: u32) -> Children
        ensures { result ≡ record { children = []; most = most } }
    {
        Children {
            children: Vec::new(alloc),
            most,
        }
    }

    /// How many were launched so far.
    pub fn launched(&self) -> u64
        ensures { result ≡ length self.now.children }
    {
        self.children.len() as u64
    }

    /// Whether one more can be numbered.
    pub fn may_launch(&self) -> bool
        ensures is { result ≡ nat_lt (length self.now.children) self.now.most }
        ensures room { result ≡ true → length self.now.children < 2 ^ 32 }
    {
        self.children.len() < self.most as usize
    }

    /// `launch`: a program is started. Its number, or none where the outside refuses.
    pub fn launch<W: Wire>(
        &mut self,
        alloc: Global,
        words: WordList,
        port: &mut Port<W>,
        parts: &mut Parts,
    ) -> Result<Option<u32>, Stop>
        requires idle { parts.old.called ≡ None }
        requires room { length self.old.children < 2 ^ 32 }
        requires own { OwnsChildren parts.old self.old }
        ensures wire_name { port.new.wire.ghost_name ≡ port.old.wire.ghost_name }
        ensures events_name { port.new.events.ghost_name ≡ port.old.events.ghost_name }
        ensures comes { Launches W.outside (plain.launch words (length parts.old.futures))
            self.old self.new
            (reach parts.old port.old.wire.now port.old.events.now)
            (reach parts.new port.new.wire.now port.new.events.now)
            result }
        ensures own { OnOk result (OwnsChildren parts.new self.new) }
        ensures idle { parts.new.called ≡ None }
    {
        let answer = ask(port, alloc, Call::Launch(words))?;
        let started = is_started(&answer);
        forget_answer(answer);
        if !started {
            return Ok(None);
        }
        let closed = make_future(alloc, parts)?;
        let id = self.next_id();
        self.push(Child::new(alloc, closed))?;
        Ok(Some(id))
    }

    // The number of the next one.
    fn next_id(&self) -> u32
        requires { length self.now.children < 2 ^ 32 }
        ensures { result ≡ length self.now.children }
    {
        self.children.len() as u32
    }

    // One more.
    fn push(&mut self, child: Child) -> Result<(), Memory>
        ensures { OnOk result
            (self.new ≡ record self.old { children = self.old.children ++ child ∷ [] }) }
    {
        self.children.push(child)?;
        Ok(())
    }
}

// Whether a child was started.
fn is_started(answer: &Answer) -> bool
    ensures { result ≡ is_child answer.now }
{
    match answer {
        Answer::Child => true,
        Answer::Refused => false,
        Answer::Turn { now: _, items: _ } => false,
        Answer::Done => false,
        Answer::Conn => false,
        Answer::Again => false,
        Answer::Broken => false,
        Answer::Data(_) => false,
        Answer::Eof => false,
        Answer::Took(_) => false,
        Answer::Extra(_) => false,
    }
}

fn forget_answer(_answer: Answer) {}
