//! One future.
ghost use Rattle.std.specs.Prelude.{◌≡◌, ◌+◌, ◌<◌, ◌^◌, IfSome, true, false, [], ◌∷◌, ◌++◌, None, Some, slice_get, is_some, if◌then◌else◌};
ghost use Rattle.std.specs.List.{list_any};
ghost use Rattle.std.specs.Option.{option_copied};
ghost use Rattle.model_loop.specs.Futures.{asked_kind};
ghost use Rattle.algorithm_parts.specs.Shape.{stands_of, members_of};
ghost use Rattle.aio_ready.specs.Queue.{soon_all};
ghost use Rattle.aio_future.specs.Kinds.{kind_of, is_asked_kind};
ghost use Rattle.aio_future.specs.Awaited.{is_step, alone_after};
ghost use Rattle.aio_future.specs.Bare.{future_of};

use crate::bare::Bare;
use aio_base::{Action, Outcome};
use aio_ready::{Callbacks, Ready, Ticket};
use algorithm_parts::FutureState;
use std::marker::Model;

/// A future's number. It is given once.
pub type FutureId = u64;

/// What a future stands for.
#[derive(Drop)]
pub enum FutureKind {
    Plain,
    /// A task's own future.
    OfTask(u32),
    /// Several futures, its members. `asked` says that its cancel was asked for, and one of them
    /// answered true.
    Many { members: Vec<FutureId>, asked: bool },
}

/// From which number on no future has members, after one of a kind was made: `next` is the number
/// after its own, and `alone` that from which on none before it had members.
pub fn alone_after(kind: &FutureKind, next: FutureId, alone: FutureId) -> FutureId
    ensures { result ≡ alone_after (kind_of kind.now) next alone }
{
    match kind {
        FutureKind::Plain => alone,
        FutureKind::OfTask(_) => alone,
        FutureKind::Many {
            members: _,
            asked: _,
        } => next,
    }
}

/// A future is pending while it has no outcome. Contracts see the plain future.
#[derive(Drop)]
pub struct Future {
    kind: FutureKind,
    outcome: Option<Outcome>,
    callbacks: Callbacks,
    // whether a step of a task was ever among the callbacks
    wakes: bool,
}

impl Model for Future {
    ghost use Rattle.model_loop.specs.Parts as plain;
    ghost use Rattle.aio_future.specs.Code.{coded_future};

    ghost Value = { plain.Future };

    ghost coded = { coded_future };

    ghost use Rattle.aio_future.specs.Kinds.{kind_of};

    ghost view = { λ a.
        record { kind = kind_of a.kind; outcome = a.outcome; callbacks = a.callbacks } };

    ghost use Rattle.aio_future.specs.Awaited.{WakesNone};

    ghost invariant = { λ a. WakesNone a.wakes a.callbacks };
}

// Whether a step of a task was among the callbacks, with one callback more.
fn wakes_with(wakes: bool, action: &Action) -> bool
    ensures { result ≡ (if is_step action.now then true else wakes) }
{
    match action {
        Action::Step(_) => true,
        Action::StepInCycle { .. } => true,
        Action::Wakeup(_) => true,
        Action::SleepDone { .. }
        | Action::GroupDone { .. }
        | Action::Fires(_)
        | Action::MainDone
        | Action::Made(_)
        | Action::StartRead(_)
        | Action::Lost { .. }
        | Action::HandlerDone { .. }
        | Action::ReadableServer(_)
        | Action::Readable(_)
        | Action::Writable(_)
        | Action::Up(_)
        | Action::Down(_)
        | Action::WritableChild(_)
        | Action::ChildItem { .. }
        | Action::LostChild { .. }
        | Action::ExtraItem { .. }
        | Action::Extra(_) => wakes,
    }
}

impl Future {
    /// A pending future of a kind, without callbacks.
    pub fn new(kind: FutureKind) -> Future
        ensures { result ≡ record { kind = kind_of kind; outcome = None; callbacks = [] } }
    {
        Future {
            kind,
            outcome: None,
            callbacks: Callbacks::new(),
            wakes: false,
        }
    }

    /// Its outcome; None exactly where it is pending.
    pub fn outcome(&self) -> Option<&Outcome>
        ensures { option_copied result ≡ self.now.outcome }
    {
        self.outcome.as_ref()
    }

    /// Whether it has an outcome.
    pub fn is_done(&self) -> bool
        ensures { result ≡ is_some self.now.outcome }
    {
        self.outcome.is_some()
    }

    /// The outcome is set, and the callbacks are called soon, in order.
    pub fn end(&mut self, outcome: Outcome, ready: &mut Ready)
        ensures after { self.new ≡ record self.old { outcome = Some outcome; callbacks = [] } }
        ensures called { ready.new ≡ soon_all self.old.callbacks ready.old }
    {
        self.outcome = Some(outcome);
        ready.soon_all(&mut self.callbacks);
    }

    /// The one that takes no room, where it is such a one and calls nothing any more.
    pub fn bare(&self) -> Option<Bare>
        ensures { IfSome result (λ bare. self.now.callbacks ≡ [] → future_of bare ≡ self.now) }
    {
        match &self.outcome {
            Some(ended) => Bare::of(&self.kind, ended),
            None => None,
        }
    }

    /// Adds a callback behind the others, with the memory of its handle.
    pub fn add(&mut self, ticket: Ticket, action: Action)
        ensures { self.new ≡ record self.old { callbacks = self.old.callbacks ++ action ∷ [] } }
    {
        self.wakes = wakes_with(self.wakes, &action);
        self.callbacks.add(ticket, action);
    }

    /// Whether a step of a task may be among its callbacks. It is among none where this is false.
    pub fn wakes(&self) -> bool
        ensures { result ≡ false → list_any is_step self.now.callbacks ≡ false }
    {
        self.wakes
    }

    /// Notes that a cancel of a future that stands for several reached a member; of any other nothing.
    pub fn ask(&mut self)
        ensures { self.new ≡ record self.old { kind = asked_kind self.old.kind } }
    {
        if let FutureKind::Many { members: _, asked } = &mut self.kind {
            *asked = true;
        }
    }

    /// Whether that was noted.
    pub fn is_asked(&self) -> bool
        ensures { result ≡ is_asked_kind self.now.kind }
    {
        match &self.kind {
            FutureKind::Many { members: _, asked } => *asked,
            FutureKind::Plain => false,
            FutureKind::OfTask(_) => false,
        }
    }

    /// How it stands to a cancel request.
    pub fn stands(&self) -> FutureState
        ensures { result ≡ stands_of self.now.outcome self.now.kind }
    {
        if self.outcome.is_some() {
            return FutureState::Done;
        }
        match &self.kind {
            FutureKind::Plain => FutureState::Plain,
            FutureKind::OfTask(task) => FutureState::OfTask(*task),
            FutureKind::Many {
                members: _,
                asked: _,
            } => FutureState::Many,
        }
    }

    /// The member at a place.
    pub fn member(&self, place: usize) -> Option<FutureId>
        ensures value { result ≡ slice_get (members_of self.now.kind) place }
        ensures room { IfSome result (λ _. place + 1 < 2 ^ 64) }
    {
        match &self.kind {
            FutureKind::Many { members, asked: _ } => members.get(place).copied(),
            FutureKind::Plain => None,
            FutureKind::OfTask(_) => None,
        }
    }
}
