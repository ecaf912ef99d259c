//! The futures by number.
ghost use Rattle.std.specs.Prelude.{◌≡◌, ◌+◌, ◌<◌, ◌^◌, IfSome, true, false, [], ◌∷◌, ◌++◌, None, Some, IfOk, OnOk, OnErr, slice_get, slice_set, length, nat_lt, if◌then◌else◌};
ghost use Rattle.std.specs.Option.{option_copied};
ghost use Rattle.model_loop.specs.Parts as plain;
ghost use Rattle.model_loop.specs.Futures.{outcome_at, is_pending_at, asked_kind};
ghost use Rattle.law_cancel.proofs.Effects.{done_as};
ghost use Rattle.algorithm_parts.specs.Shape.{stands_at, members_at};
ghost use Rattle.algorithm_parts.specs.Released.{released};
ghost use Rattle.aio_ready.specs.Queue as queue;
ghost use Rattle.aio_future.specs.Kinds.{kind_of, is_asked};
ghost use Rattle.aio_future.specs.Settled.{settled, called, registered, soon_if_done, asked};
ghost use Rattle.aio_future.specs.Awaited.{IsUnawaited};

use crate::ends::Ends;
use crate::future::{FutureId, FutureKind, alone_after};
use crate::held::HeldFuture;
use aio_base::{Action, Memory, Outcome};
use aio_ready::{Ready, Ticket};
use algorithm_parts::FutureState;
use indexmap::IndexMap;
use std::alloc::Global;
use std::marker::Model;

/// The futures. Contracts see the list of all that were made, by number, in which a released one
/// stands as a done one without callbacks.
#[derive(Drop)]
pub struct Futures {
    held: IndexMap<FutureId, HeldFuture>,
    next: FutureId,
    // none of this number or a later one has members, which are made before what stands for them
    alone: FutureId,
    // what stands for a released one
    over: HeldFuture,
    // the outcomes of those that have no room of their own
    ends: Ends,
}

impl Model for Futures {
    ghost use Rattle.std.specs.Prelude.{◌≡◌, List};
    ghost use Rattle.std.specs.Coded.{coded_list};
    ghost use Rattle.model_loop.specs.Parts as plain;
    ghost use Rattle.algorithm_parts.specs.Released.{released};
    ghost use Rattle.aio_future.specs.Code.{coded_future};

    ghost Value = { List plain.Future };

    ghost coded = { coded_list coded_future };

    ghost use Rattle.aio_future.specs.Table.{table, held_in, IsBelow};
    ghost use Rattle.aio_future.specs.Awaited.{HasNoMembersFrom};

    ghost view = { λ a. table (held_in a.held.entries) a.next };

    ghost invariant = { λ a. IsBelow a.held.entries a.next
        × ((a.over ≡ released) × HasNoMembersFrom a.held.entries a.alone) };
}

impl Futures {
    /// No futures.
    pub fn new(alloc: Global) -> Result<Futures, Memory>
        ensures { IfOk result (λ futures. futures ≡ []) }
    {
        let held = IndexMap::new(alloc);
        let over = HeldFuture::over();
        let ends = Ends::new();
        Ok(Futures {
            held,
            next: 0,
            alone: 0,
            over,
            ends,
        })
    }

    /// A pending future that stands for itself alone, and its number.
    pub fn new_plain(&mut self, alloc: Global) -> Result<FutureId, Memory>
        ensures number { IfOk result (λ id. id ≡ length self.old) }
        ensures after { OnOk result (self.new ≡
            self.old ++ record { kind = plain.Plain; outcome = None; callbacks = [] } ∷ []) }
        ensures err { OnErr result (self.new ≡ self.old) }
    {
        self.make(alloc, FutureKind::Plain)
    }

    /// A pending future that stands for several, its members, and its number.
    pub fn new_many(&mut self, alloc: Global, members: Vec<FutureId>) -> Result<FutureId, Memory>
        ensures number { IfOk result (λ id. id ≡ length self.old) }
        ensures after { OnOk result (self.new ≡ self.old
            ++ record { kind = plain.Many members.items false; outcome = None; callbacks = [] }
            ∷ []) }
        ensures err { OnErr result (self.new ≡ self.old) }
    {
        let asked = false;
        self.make(alloc, FutureKind::Many { members, asked })
    }

    /// A pending future, and its number.
    pub fn make(&mut self, alloc: Global, kind: FutureKind) -> Result<FutureId, Memory>
        ensures number { IfOk result (λ id. id ≡ length self.old) }
        ensures after { OnOk result (self.new ≡
            self.old ++ record { kind = kind_of kind; outcome = None; callbacks = [] } ∷ []) }
        ensures err { OnErr result (self.new ≡ self.old) }
    {
        let id = self.next;
        let Some(next) = id.checked_add(1) else {
            return Err(Memory);
        };
        let alone = alone_after(&kind, next, self.alone);
        let future = HeldFuture::new(alloc, kind)?;
        self.held.insert(id, future)?;
        self.next = next;
        self.alone = alone;
        Ok(id)
    }

    /// The number that the next future gets.
    pub fn next(&self) -> FutureId
        ensures { result ≡ length self.now }
    {
        self.next
    }

    /// `set_result` and its kin: a pending future gets its outcome, and its callbacks are called
    /// soon, in order of registration. A done one stays as it is: false.
    pub fn resolve(&mut self, id: FutureId, outcome: Outcome, ready: &mut Ready) -> bool
        ensures answer { result ≡ is_pending_at (slice_get self.old id) }
        ensures after { self.new ≡ settled id outcome self.old }
        ensures called { ready.new ≡ queue.soon_all (called id self.old) ready.old }
    {
        if !self.is_pending(id) {
            return false;
        }
        self.end(id, outcome, ready);
        self.let_go(id);
        true
    }

    /// `add_done_callback`: of a pending future it waits, of a done one it is called soon.
    pub fn on_done(&mut self, id: FutureId, ticket: Ticket, action: Action, ready: &mut Ready)
        ensures after { self.new ≡ registered id action self.old }
        ensures called { ready.new ≡ soon_if_done id action self.old ready.old }
    {
        if self.is_pending(id) {
            self.add(id, ticket, action);
        } else if self.at(id).is_some() {
            let _id = ready.soon(ticket, action);
        }
    }

    /// How a future ended. `None` exactly where it is pending, or was not made.
    pub fn outcome(&self, id: FutureId) -> Option<&Outcome>
        ensures { option_copied result ≡ outcome_at (slice_get self.now id) }
    {
        match self.at(id) {
            Some(future) => future.outcome(&self.ends),
            None => None,
        }
    }

    /// A future is released. From then on it stands as a done one without callbacks, and its memory
    /// is free.
    pub fn release(&mut self, id: FutureId)
        ensures { self.new ≡ (if nat_lt id (length self.old)
            then slice_set self.old id released else self.old) }
    {
        let _future = self.held.swap_remove(&id);
    }

    /// A future that stands for several keeps that its cancel was asked for. Others stay as they
    /// are.
    pub fn mark_asked(&mut self, id: FutureId)
        ensures { self.new ≡ asked id self.old }
    {
        if self.at(id).is_some() {
            self.ask(id);
        }
    }

    /// Whether the cancel of a future that stands for several was asked for.
    pub fn asked(&self, id: FutureId) -> bool
        ensures { result ≡ is_asked (slice_get self.now id) }
    {
        match self.at(id) {
            Some(future) => future.is_asked(),
            None => false,
        }
    }

    /// Whether a future was made and is not done.
    pub fn is_pending(&self, id: FutureId) -> bool
        ensures { result ≡ is_pending_at (slice_get self.now id) }
    {
        match self.at(id) {
            Some(future) => !future.is_done(),
            None => false,
        }
    }

    /// Whether a task or a future that stands for several may wait for this one. None does where
    /// the answer is false. It looks at no other future: whatever was made before the last one that
    /// stands for several may be a member.
    pub fn may_be_awaited(&self, id: FutureId) -> bool
        ensures { result ≡ false → IsUnawaited id self.now }
    {
        let Some(future) = self.held.get(&id) else {
            return true;
        };
        if id < self.alone {
            return true;
        }
        future.wakes()
    }

    /// How a future stands for whoever walks over futures.
    pub fn stands(&self, id: FutureId) -> FutureState
        ensures { result ≡ stands_at (slice_get self.now id) }
    {
        match self.at(id) {
            Some(future) => future.stands(),
            None => FutureState::Done,
        }
    }

    /// The member at a place of a future that stands for several.
    pub fn member(&self, id: FutureId, place: usize) -> Option<FutureId>
        ensures value { result ≡ slice_get (members_at (slice_get self.now id)) place }
        ensures room { IfSome result (λ _. place + 1 < 2 ^ 64) }
    {
        match self.at(id) {
            Some(future) => future.member(place),
            None => None,
        }
    }

    // One that stands as a released one does takes no memory.
    fn let_go(&mut self, id: FutureId)
        ensures { self.new ≡ self.old }
    {
        if self.is_released(id) {
            self.release(id);
        }
    }

    fn is_released(&self, id: FutureId) -> bool
        ensures { result ≡ true → slice_get self.now id ≡ Some released }
    {
        match self.at(id) {
            Some(future) => future.is_released(),
            None => false,
        }
    }

    fn at(&self, id: FutureId) -> Option<&HeldFuture>
        ensures { option_copied result ≡ slice_get self.now id }
    {
        match self.held.get(&id) {
            Some(future) => Some(future),
            None => self.released_at(id),
        }
    }

    fn released_at(&self, id: FutureId) -> Option<&HeldFuture>
        ensures { option_copied result
            ≡ (if nat_lt id (length self.now) then Some released else None) }
    {
        if id < self.next {
            Some(&self.over)
        } else {
            None
        }
    }

    fn end(&mut self, id: FutureId, outcome: Outcome, ready: &mut Ready)
        requires { is_pending_at (slice_get self.old id) ≡ true }
        ensures after { (future : plain.Future) → slice_get self.old id ≡ Some future
            → self.new ≡ slice_set self.old id (done_as outcome future) }
        ensures called { (future : plain.Future) → slice_get self.old id ≡ Some future
            → ready.new ≡ queue.soon_all future.callbacks ready.old }
    {
        let future = self.held.get_mut(&id).unwrap();
        future.end(outcome, ready);
    }

    fn add(&mut self, id: FutureId, ticket: Ticket, action: Action)
        requires { is_pending_at (slice_get self.old id) ≡ true }
        ensures { (future : plain.Future) → slice_get self.old id ≡ Some future
            → self.new ≡ slice_set self.old id
            (record future { callbacks = future.callbacks ++ action ∷ [] }) }
    {
        let future = self.held.get_mut(&id).unwrap();
        future.add(ticket, action);
    }

    fn ask(&mut self, id: FutureId)
        ensures { (future : plain.Future) → slice_get self.old id ≡ Some future
            → self.new ≡ slice_set self.old id (record future { kind = asked_kind future.kind }) }
    {
        let Some(future) = self.held.get_mut(&id) else {
            return;
        };
        future.ask();
    }
}
