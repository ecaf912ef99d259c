//! A future as the table holds it.
ghost use Rattle.std.specs.Prelude.{◌≡◌, ◌+◌, ◌<◌, ◌^◌, IfOk, IfSome, true, false, [], ◌∷◌, ◌++◌, None, slice_get, is_some};
ghost use Rattle.std.specs.List.{list_any};
ghost use Rattle.std.specs.Option.{option_copied};
ghost use Rattle.model_loop.specs.Futures.{asked_kind};
ghost use Rattle.law_cancel.proofs.Effects.{done_as};
ghost use Rattle.algorithm_parts.specs.Shape.{stands_of, members_of};
ghost use Rattle.algorithm_parts.specs.Released.{released};
ghost use Rattle.aio_ready.specs.Queue.{soon_all};
ghost use Rattle.aio_future.specs.Kinds.{kind_of, is_asked_kind};
ghost use Rattle.aio_future.specs.Awaited.{is_step};
ghost use Rattle.aio_future.specs.Bare.{future_of};

use crate::bare::Bare;
use crate::ends::Ends;
use crate::future::{Future, FutureId, FutureKind};
use aio_base::{Action, Memory, Outcome};
use aio_ready::{Ready, Ticket};
use algorithm_parts::FutureState;
use std::alloc::Global;
use std::marker::Model;

/// A future with room of its own, which it has while it is pending, or one that needs none any more.
/// Contracts see the plain future.
#[derive(Drop)]
pub struct HeldFuture {
    room: Room,
}

#[derive(Drop)]
enum Room {
    Whole(Box<Future>),
    Over(Bare),
}

impl Model for HeldFuture {
    ghost use Rattle.model_loop.specs.Parts as plain;
    ghost use Rattle.aio_future.specs.Code.{coded_future};

    ghost Value = { plain.Future };

    ghost coded = { coded_future };

    ghost use Rattle.aio_future.specs.Rooms.{future_in};

    ghost view = { λ a. future_in a.room };
}

impl HeldFuture {
    /// A pending future of a kind, without callbacks.
    pub fn new(alloc: Global, kind: FutureKind) -> Result<HeldFuture, Memory>
        ensures { IfOk result (λ held. held
            ≡ record { kind = kind_of kind; outcome = None; callbacks = [] }) }
    {
        let future = Box::new(alloc, Future::new(kind))?;
        Ok(HeldFuture {
            room: Room::Whole(future),
        })
    }

    /// The future that stands for a released one; takes no memory.
    pub fn over() -> HeldFuture
        ensures { result ≡ released }
    {
        HeldFuture {
            room: Room::Over(Bare::Returned),
        }
    }

    /// Whether it stands as a released one does. So does none where this is true that isn't one.
    pub fn is_released(&self) -> bool
        ensures { result ≡ true → self.now ≡ released }
    {
        matches!(&self.room, Room::Over(Bare::Returned))
    }

    /// Its outcome; None exactly where it is pending.
    pub fn outcome<'a>(&'a self, ends: &'a Ends) -> Option<&'a Outcome>
        ensures { option_copied result ≡ self.now.outcome }
    {
        match &self.room {
            Room::Whole(future) => future.outcome(),
            Room::Over(bare) => Some(bare.ended(ends)),
        }
    }

    /// Whether it has an outcome.
    pub fn is_done(&self) -> bool
        ensures { result ≡ is_some self.now.outcome }
    {
        match &self.room {
            Room::Whole(future) => future.is_done(),
            Room::Over(_) => true,
        }
    }

    /// A pending future gets its outcome, and the callbacks are called soon, in order. It keeps room
    /// where its outcome takes any.
    pub fn end(&mut self, outcome: Outcome, ready: &mut Ready)
        requires { self.old.outcome ≡ None }
        ensures after { self.new ≡ done_as outcome self.old }
        ensures called { ready.new ≡ soon_all self.old.callbacks ready.old }
    {
        self.end_in_room(outcome, ready);
        self.let_go();
    }

    fn end_in_room(&mut self, outcome: Outcome, ready: &mut Ready)
        requires { self.old.outcome ≡ None }
        ensures after { self.new ≡ done_as outcome self.old }
        ensures called { ready.new ≡ soon_all self.old.callbacks ready.old }
    {
        match &mut self.room {
            Room::Whole(future) => future.end(outcome, ready),
            Room::Over(_) => {}
        }
    }

    // Its room is free where it needs none.
    fn let_go(&mut self)
        requires { self.old.callbacks ≡ [] }
        ensures { self.new ≡ self.old }
    {
        if let Some(bare) = self.bare() {
            self.room = Room::Over(bare);
        }
    }

    fn bare(&self) -> Option<Bare>
        requires { self.now.callbacks ≡ [] }
        ensures { IfSome result (λ bare. future_of bare ≡ self.now) }
    {
        match &self.room {
            Room::Whole(future) => future.bare(),
            Room::Over(_) => None,
        }
    }

    /// Adds a callback behind the others of a pending future, with the memory of its handle.
    pub fn add(&mut self, ticket: Ticket, action: Action)
        requires { self.old.outcome ≡ None }
        ensures { self.new ≡ record self.old { callbacks = self.old.callbacks ++ action ∷ [] } }
    {
        match &mut self.room {
            Room::Whole(future) => future.add(ticket, action),
            Room::Over(_) => {}
        }
    }

    /// Whether a step of a task may be among its callbacks. It is among none where this is false.
    pub fn wakes(&self) -> bool
        ensures { result ≡ false → list_any is_step self.now.callbacks ≡ false }
    {
        match &self.room {
            Room::Whole(future) => future.wakes(),
            Room::Over(_) => false,
        }
    }

    /// Notes that a cancel of a future that stands for several reached a member; of any other nothing.
    pub fn ask(&mut self)
        ensures { self.new ≡ record self.old { kind = asked_kind self.old.kind } }
    {
        match &mut self.room {
            Room::Whole(future) => future.ask(),
            Room::Over(_) => {}
        }
    }

    /// Whether that was noted.
    pub fn is_asked(&self) -> bool
        ensures { result ≡ is_asked_kind self.now.kind }
    {
        match &self.room {
            Room::Whole(future) => future.is_asked(),
            Room::Over(_) => false,
        }
    }

    /// How it stands to a cancel request.
    pub fn stands(&self) -> FutureState
        ensures { result ≡ stands_of self.now.outcome self.now.kind }
    {
        match &self.room {
            Room::Whole(future) => future.stands(),
            Room::Over(_) => FutureState::Done,
        }
    }

    /// The member at a place.
    pub fn member(&self, place: usize) -> Option<FutureId>
        ensures value { result ≡ slice_get (members_of self.now.kind) place }
        ensures room { IfSome result (λ _. place + 1 < 2 ^ 64) }
    {
        match &self.room {
            Room::Whole(future) => future.member(place),
            Room::Over(_) => None,
        }
    }
}
