//! How listeners, connections and children are opened.
ghost use Rattle.std.specs.Prelude.{◌≡◌, ◌<◌, ◌^◌, true, None, OnOk, length};
ghost use Rattle.model_stream.specs.Streams as plain;
ghost use Rattle.aio_exchange.specs.Follows.{reach};
ghost use Rattle.aio_task.specs.View.{View};
ghost use Rattle.aio_transports.specs.Kept.{with_launched};
ghost use Rattle.aio_transports.specs.Owned.{OwnsTransports};
ghost use Rattle.aio_transports.specs.Standing.{Answers, TransportsStandFor};

use super::Transports;
use super::remaining::Remaining;
use aio_base::Memory;
use aio_children::Children;
use aio_listener::{Connecting, connect, listen};
use aio_stream::Streams;
use aio_task::Parts;
use aio_wire::{Port, Stop, Wire, WordList};
use std::alloc::Global;

impl Transports {
    /// Nothing was opened so far, and so many of each kind can be numbered.
    pub fn new(alloc: Global, most: u32) -> Transports
        ensures stands { TransportsStandFor result (plain.no_streams most) }
        ensures own { (v : View) → OwnsTransports v result }
    {
        Transports {
            streams: Streams::new(alloc, most),
            children: Children::new(alloc, most),
            remaining: Remaining::new(alloc),
        }
    }

    /// Whether one more listener can be numbered.
    pub fn may_listen(&self) -> bool
        ensures is { (s : plain.Streams) → TransportsStandFor self.now s
            → result ≡ plain.may_listen s }
        ensures room { result ≡ true → length self.now.streams.servers < 2 ^ 32 }
    {
        self.streams.may_listen()
    }

    /// Whether one more connection can be numbered.
    pub fn may_connect(&self) -> bool
        ensures is { (s : plain.Streams) → TransportsStandFor self.now s
            → result ≡ plain.may_connect s }
        ensures room { result ≡ true → length self.now.streams.connections < 2 ^ 32 }
    {
        self.streams.may_connect()
    }

    /// Whether one more child can be numbered.
    pub fn may_launch(&self) -> bool
        ensures is { (s : plain.Streams) → TransportsStandFor self.now s
            → result ≡ plain.may_launch s }
        ensures room { result ≡ true → length self.now.children.children < 2 ^ 32 }
    {
        self.children.may_launch()
    }

    /// `listen` on a port: the listener's number, or none where it is refused. Its connections are
    /// handled by the coroutine `handler`.
    pub fn listen<W: Wire>(
        &mut self,
        alloc: Global,
        number: u16,
        handler: u32,
        port: &mut Port<W>,
    ) -> Result<Option<u32>, Stop>
        requires room { length self.old.streams.servers < 2 ^ 32 }
        ensures wire_name { port.new.wire.ghost_name ≡ port.old.wire.ghost_name }
        ensures events_name { port.new.events.ghost_name ≡ port.old.events.ghost_name }
        ensures comes { (v : View) → Answers W.outside (plain.listen number handler)
            self.old self.new
            (reach v port.old.wire.now port.old.events.now)
            (reach v port.new.wire.now port.new.events.now)
            result }
        ensures own { OnOk result
            ((v : View) → OwnsTransports v self.old → OwnsTransports v self.new) }
    {
        listen(&mut self.streams, alloc, number, handler, port)
    }

    /// `connect` to a port: the connection's number and the future that the connect waits on, or
    /// none where it is refused.
    pub fn connect<W: Wire>(
        &mut self,
        alloc: Global,
        number: u16,
        port: &mut Port<W>,
        parts: &mut Parts,
    ) -> Result<Option<Connecting>, Stop>
        requires idle { parts.old.called ≡ None }
        requires own { OwnsTransports parts.old self.old }
        requires room { length self.old.streams.connections < 2 ^ 32 }
        ensures wire_name { port.new.wire.ghost_name ≡ port.old.wire.ghost_name }
        ensures events_name { port.new.events.ghost_name ≡ port.old.events.ghost_name }
        ensures comes { Answers W.outside (plain.connect number (length parts.old.futures))
            self.old self.new
            (reach parts.old port.old.wire.now port.old.events.now)
            (reach parts.new port.new.wire.now port.new.events.now)
            result }
        ensures own { OnOk result (OwnsTransports parts.new self.new) }
        ensures idle { parts.new.called ≡ None }
    {
        connect(&mut self.streams, alloc, number, port, parts)
    }

    /// `launch`: a program is started. Its number, or none where the outside refuses.
    pub fn launch<W: Wire>(
        &mut self,
        alloc: Global,
        words: WordList,
        port: &mut Port<W>,
        parts: &mut Parts,
    ) -> Result<Option<u32>, Stop>
        requires idle { parts.old.called ≡ None }
        requires own { OwnsTransports parts.old self.old }
        requires room { length self.old.children.children < 2 ^ 32 }
        ensures wire_name { port.new.wire.ghost_name ≡ port.old.wire.ghost_name }
        ensures events_name { port.new.events.ghost_name ≡ port.old.events.ghost_name }
        ensures comes { Answers W.outside (plain.launch words (length parts.old.futures))
            self.old self.new
            (reach parts.old port.old.wire.now port.old.events.now)
            (reach parts.new port.new.wire.now port.new.events.now)
            result }
        ensures own { OnOk result (OwnsTransports parts.new self.new) }
        ensures idle { parts.new.called ≡ None }
    {
        let launched = self.children.launch(alloc, words, port, parts)?;
        put_in_order(&mut self.streams, launched)?;
        Ok(launched)
    }
}

// What a launch answered is put into the order of opening.
fn put_in_order(streams: &mut Streams, launched: Option<u32>) -> Result<(), Memory>
    ensures { OnOk result (streams.new ≡ with_launched launched streams.old) }
{
    match launched {
        None => Ok(()),
        Some(id) => streams.add_child(id),
    }
}
