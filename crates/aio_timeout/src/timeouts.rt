//! The timeouts.
ghost use Rattle.std.specs.Prelude.{◌≡◌, ◌+◌, ◌<◌, [], false, None, IfOk, OnOk, OnErr, length, nat_le};
ghost use Rattle.std.specs.Option.{option_map_or};
ghost use Rattle.model_loop.specs.Tasks.{cancelling, uncancel, is_cancelled};
ghost use Rattle.model_loop.specs.Loop.{Loop};
ghost use Rattle.model_loop.specs.Parts.{profile_named};
ghost use Rattle.model_loop.specs.Timeouts as timeouts;
ghost use Rattle.model_loop.specs.Timeouts.{has_expired, timeout_of};
ghost use Rattle.aio_task.specs.View as view;
ghost use Rattle.aio_task.specs.Keeps.{NameMap, Becomes};
ghost use Rattle.aio_timeout.specs.States.{refused, refusal, has_timed_out};
ghost use Rattle.aio_timeout.specs.Kept.{AreTimeouts, KeepsTimeouts, KeptTimeouts, StepsNone, IsSameStep, handler_at};

use crate::delay::{deadline_after, moment_at};
use crate::handler::{give_up, schedule};
use crate::state::{Rescheduled, TimeoutExit, TimeoutState, exit_of};
use crate::timeout::Timeout;
use aio_base::{Exc, Kind, Memory};
use aio_task::Parts;
use std::alloc::Global;
use std::marker::Model;

/// The timeouts of one `Parts`, by number. A call that answers `Memory` leaves them and the parts
/// as they were.
#[derive(Drop)]
pub struct Timeouts {
    items: Vec<Timeout>,
}

impl Model for Timeouts {
    ghost use Rattle.std.specs.Prelude.{List};
    ghost use Rattle.aio_timeout.specs.declared.timeout.Timeout.{Timeout};

    ghost Value = { List Timeout };

    ghost view = { λ a. a.items.items };
}

impl Timeouts {
    /// No timeouts.
    pub fn new(alloc: Global) -> Result<Timeouts, Memory>
        ensures { IfOk result (λ made. made ≡ []) }
    {
        Ok(Timeouts {
            items: Vec::new(alloc),
        })
    }

    /// How many were made, which is the number that the next one gets.
    pub fn count(&self) -> usize
        ensures { result ≡ length self.now }
    {
        self.items.len()
    }

    /// A task enters a block whose time is over after a delay in milliseconds, which may be
    /// negative, or never. The answer is the timeout's number.
    pub fn enter(
        &mut self,
        alloc: Global,
        task: u32,
        delay: Option<i64>,
        parts: &mut Parts,
    ) -> Result<u32, Memory>
        requires idle { parts.old.called ≡ None }
        ensures number { IfOk result (λ id. id ≡ length self.old) }
        ensures after { OnOk result ((t : NameMap) (l : Loop) → KeepsTimeouts t self.old parts.old l
            → KeptTimeouts t l self.new parts.new (timeouts.enter_timeout task delay l)) }
        ensures count { OnOk result (length self.new ≡ length self.old + 1) }
        ensures below { length parts.new.queue.below ≡ length parts.old.queue.below }
        ensures step { IsSameStep parts.old parts.new }
        ensures err { OnErr result ((self.new ≡ self.old) × (parts.new ≡ parts.old)) }
    {
        let Ok(id) = u32::try_from(self.items.len()) else {
            return Err(Memory);
        };
        self.items.reserve(1)?;
        let stored = parts.cancelling(task);
        let when = deadline_after(parts.now(), delay);
        let handler = schedule(alloc, id, when, parts)?;
        let pushed = self.items.push(Timeout {
            state: TimeoutState::Active,
            task,
            stored,
            handler,
        });
        prove!(pushed.is_ok());
        Ok(id)
    }

    /// A new deadline, or none. It is refused exactly where the timeout isn't active.
    pub fn reschedule(
        &mut self,
        alloc: Global,
        id: u32,
        when: Option<i64>,
        parts: &mut Parts,
    ) -> Result<Rescheduled, Memory>
        requires idle { parts.old.called ≡ None }
        requires live { id < length self.old }
        requires steps_none { StepsNone parts.old.queue (handler_at id self.old) }
        ensures answer { IfOk result
            (λ answer. (t : NameMap) (l : Loop) → AreTimeouts t l.parts self.old l.timeouts
            → refused answer ≡ refusal (timeout_of l id).state) }
        ensures after { OnOk result ((t : NameMap) (l : Loop) → KeepsTimeouts t self.old parts.old l
            → KeptTimeouts t l self.new parts.new (timeouts.reschedule id when l)) }
        ensures count { length self.new ≡ length self.old }
        ensures below { length parts.new.queue.below ≡ length parts.old.queue.below }
        ensures step { IsSameStep parts.old parts.new }
        ensures err { OnErr result ((self.new ≡ self.old) × (parts.new ≡ parts.old)) }
    {
        let timeout = self.items[id as usize];
        if !timeout.state.is_active() {
            return Ok(Rescheduled::BadState(timeout.state));
        }
        let handler = schedule(alloc, id, moment_at(when), parts)?;
        give_up(timeout.handler, parts);
        self.items[id as usize] = Timeout { handler, ..timeout };
        Ok(Rescheduled::Set)
    }

    /// The deadline has come: the handle that waited for it was taken from the queue. The cancel of
    /// the task is asked for.
    pub fn fire(&mut self, id: u32, parts: &mut Parts)
        requires idle { parts.old.called ≡ None }
        requires live { id < length self.old }
        ensures after { (t : NameMap) (l : Loop) → KeepsTimeouts t self.old parts.old l
            → KeptTimeouts t l self.new parts.new (timeouts.fire id l) }
        ensures given_up { handler_at id self.new ≡ None }
        ensures count { length self.new ≡ length self.old }
        ensures below { length parts.new.queue.below ≡ length parts.old.queue.below }
        ensures step { IsSameStep parts.old parts.new }
    {
        let timeout = self.items[id as usize];
        self.items[id as usize] = Timeout {
            state: TimeoutState::Expiring,
            handler: None,
            ..timeout
        };
        let _answer = parts.cancel(parts.future_of(timeout.task));
    }

    /// The block is left, by an exception or by none. A timeout whose time was over takes its
    /// cancel back, and TimeoutError is raised in place of a CancelledError that nobody else asked
    /// for.
    pub fn exit(&mut self, id: u32, raised: Option<Exc>, parts: &mut Parts) -> TimeoutExit
        requires idle { parts.old.called ≡ None }
        requires live { id < length self.old }
        requires steps_none { StepsNone parts.old.queue (handler_at id self.old) }
        ensures answer { (t : NameMap) (l : Loop) → KeepsTimeouts t self.old parts.old l
            → l.profile ≡ profile_named parts.old.profile
            → has_timed_out result ≡ (timeouts.exit_timeout raised id l).timed_out }
        ensures after { (t : NameMap) (l : Loop) → KeepsTimeouts t self.old parts.old l
            → l.profile ≡ profile_named parts.old.profile
            → KeptTimeouts t l self.new parts.new (timeouts.exit_timeout raised id l).loop }
        ensures given_up { handler_at id self.new ≡ None }
        ensures count { length self.new ≡ length self.old }
        ensures below { length parts.new.queue.below ≡ length parts.old.queue.below }
        ensures step { IsSameStep parts.old parts.new }
    {
        let left = self.items[id as usize];
        give_up(left.handler, parts);
        let expiring = left.state.is_expiring();
        if !expiring {
            self.items[id as usize] = ended(left, TimeoutState::Finished);
            return TimeoutExit::Passes;
        }
        self.items[id as usize] = ended(left, TimeoutState::Expired);
        let count = take_back(left.task, parts);
        exit_of(is_alone(count, left.stored) & is_cancelled(&raised))
    }

    /// `expired()`: whether the time of a timeout was over before its block was left.
    pub fn expired(&self, id: u32) -> bool
        requires live { id < length self.now }
        ensures answer { (t : NameMap) (l : Loop) → AreTimeouts t l.parts self.now l.timeouts
            → result ≡ has_expired (timeout_of l id).state }
    {
        self.items[id as usize].state.has_expired()
    }
}

// A timeout whose block was left.
fn ended(timeout: Timeout, state: TimeoutState) -> Timeout
    ensures { result ≡ record timeout { state = state; handler = None } }
{
    Timeout {
        state,
        handler: None,
        ..timeout
    }
}

// The cancel that a timeout asked for is taken back. The answer is the task's count then.
fn take_back(task: u32, parts: &mut Parts) -> u64
    requires idle { parts.old.called ≡ None }
    ensures after { Becomes parts.old parts.new
        (uncancel (profile_named parts.old.profile) task (view.parts parts.old)) }
    ensures answer { result ≡ cancelling (view.parts parts.new) task }
    ensures below { length parts.new.queue.below ≡ length parts.old.queue.below }
    ensures step { IsSameStep parts.old parts.new }
{
    parts.uncancel(task)
}

// Whether nobody asked for a task's cancel since its count was stored.
fn is_alone(count: u64, stored: u64) -> bool
    ensures { result ≡ nat_le count stored }
{
    count <= stored
}

// Whether a block ended with CancelledError.
fn is_cancelled(raised: &Option<Exc>) -> bool
    ensures { result ≡ option_map_or is_cancelled raised.now false }
{
    match raised {
        Some(fault) => fault.kind() == Kind::CancelledError,
        None => false,
    }
}
