//! The queue, the futures and the tasks.
ghost use Rattle.std.specs.Prelude.{◌≡◌, ◌+◌, ◌<◌, ◌^◌, false, [], IfOk, IfSome, None, Some, slice_get, if◌then◌else◌};
ghost use Rattle.std.specs.Option.{option_copied};
ghost use Rattle.model_loop.specs.Futures.{settle, mark_asked};
ghost use Rattle.model_loop.specs.Tasks.{raise_count, set_must_cancel as set_must_cancel_of};
ghost use Rattle.algorithm_parts.specs.Shape.{stands_at, members_at};
ghost use Rattle.algorithm_parts.specs.Quiet.{asked_of, stage_at};
ghost use Rattle.aio_ready.specs.Queue.{no_handles};
ghost use Rattle.aio_future.specs.Awaited.{IsUnawaited};
ghost use Rattle.aio_cancel.specs.Awaitables.{parts, Appended};

use crate::task::Task;
use aio_base::{Memory, Outcome};
use aio_future::{FutureId, Futures};
use aio_ready::Ready;
use algorithm_parts::FutureState;
use std::alloc::Global;
use std::marker::Model;

/// What a request changes. Contracts see the queue, the futures and the tasks.
#[derive(Drop)]
pub struct Awaitables {
    pub ready: Ready,
    pub futures: Futures,
    pub tasks: Vec<Task>,
}

impl Model for Awaitables {
    ghost use Rattle.aio_cancel.specs.Awaitables.{Awaitables};
    ghost use Rattle.aio_cancel.specs.Code.{coded_view};

    ghost Value = { Awaitables };

    ghost coded = { coded_view };

    ghost view = { λ a. record { queue = a.ready; futures = a.futures; tasks = a.tasks.items } };
}

impl Awaitables {
    /// No handles, no futures, no tasks.
    pub fn new(alloc: Global) -> Result<Awaitables, Memory>
        ensures { IfOk result
            (λ body. body ≡ record { queue = no_handles; futures = []; tasks = [] }) }
    {
        let futures = Futures::new(alloc)?;
        Ok(Awaitables {
            ready: Ready::new(),
            futures,
            tasks: Vec::new(alloc),
        })
    }

    /// How a future stands to a cancel request: whether it is done, and else its kind.
    pub fn stands(&self, id: FutureId) -> FutureState
        ensures { result ≡ stands_at (slice_get self.now.futures id) }
    {
        self.futures.stands(id)
    }

    /// Of a pending future that stands for several, whether its cancel was asked for.
    pub fn asked(&self, id: FutureId) -> Option<bool>
        ensures { result ≡ asked_of (stage_at (parts self.now) id) }
    {
        match self.futures.stands(id) {
            FutureState::Many => Some(self.futures.asked(id)),
            FutureState::Done => None,
            FutureState::Plain => None,
            FutureState::OfTask(_) => None,
        }
    }

    /// The member at a place, from 0, of a future that stands for several; None past the last.
    pub fn member(&self, id: FutureId, place: usize) -> Option<FutureId>
        ensures value { result ≡ slice_get (members_at (slice_get self.now.futures id)) place }
        ensures room { IfSome result (λ _. place + 1 < 2 ^ 64) }
    {
        self.futures.member(id, place)
    }

    /// Whether a task or a future that stands for several may wait for a pending future. None does
    /// where the answer is false.
    pub fn may_be_awaited(&self, id: FutureId) -> bool
        ensures { result ≡ false → IsUnawaited id self.now.futures }
    {
        self.futures.may_be_awaited(id)
    }

    /// The task of a number; None where none was made.
    pub fn task(&self, task: u32) -> Option<&Task>
        ensures { option_copied result ≡ slice_get self.now.tasks task }
    {
        self.tasks.get(task as usize)
    }

    /// A pending future gets its outcome, and its callbacks are called soon.
    pub fn settle(&mut self, id: FutureId, outcome: Outcome)
        ensures after { parts self.new ≡ settle id outcome (parts self.old) }
        ensures queue { Appended self.old.queue self.new.queue }
    {
        let _was_pending = self.futures.resolve(id, outcome, &mut self.ready);
    }

    /// A future that stands for several keeps that its cancel was asked for, where a member
    /// answered true.
    pub fn ask_where(&mut self, any: bool, id: FutureId)
        ensures after { parts self.new
            ≡ (if any then mark_asked id (parts self.old) else parts self.old) }
        ensures queue { self.new.queue ≡ self.old.queue }
    {
        if any {
            self.futures.mark_asked(id);
        }
    }

    /// A task counts one cancel more.
    pub fn raise(&mut self, task: u32)
        ensures after { parts self.new ≡ raise_count task (parts self.old) }
        ensures queue { self.new.queue ≡ self.old.queue }
    {
        if let Some(task) = self.tasks.get_mut(task as usize) {
            task.raise();
        }
    }

    /// A cancel waits for the task's next step.
    pub fn set_must_cancel(&mut self, task: u32)
        ensures after { parts self.new ≡ set_must_cancel_of task (parts self.old) }
        ensures queue { self.new.queue ≡ self.old.queue }
    {
        if let Some(task) = self.tasks.get_mut(task as usize) {
            task.set_must_cancel();
        }
    }
}
