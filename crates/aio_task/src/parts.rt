//! The loop's parts: what they hold, and the calls of tasks.
ghost use Rattle.std.specs.Prelude.{◌≡◌, ℕ, ◌≤◌, ◌<◌, true, not, None, Some, IfOk, OnOk, OnErr, length, slice_get};
ghost use Rattle.model_value.specs.Number.{most};
ghost use Rattle.model_value.specs.declared.action.Action.TheVariants as action;
ghost use Rattle.model_loop.specs.Futures.{is_pending_at};
ghost use Rattle.model_loop.specs.Parts.{profile_named};
ghost use Rattle.model_loop.specs.Tasks as tasks;
ghost use Rattle.model_loop.specs.MustCancel.{MustCancelWaits};
ghost use Rattle.model_loop.specs.Owning.{OwnsFutures};
ghost use Rattle.model_loop.specs.Sound.{HasNoCycle};
ghost use Rattle.model_loop.specs.Ways.{HasOneWay, IsReady};
ghost use Rattle.model_loop.specs.Cancel as request;
ghost use Rattle.model_loop.specs.Cycles.{cycle};
ghost use Rattle.model_loop.specs.Spent.{is_spent};
ghost use Rattle.model_loop.specs.Suspend.{suspend as suspend_of};
ghost use Rattle.aio_ready.specs.Queue as queue;
ghost use Rattle.aio_cancel.specs.Awaitables.{Appended};
ghost use Rattle.aio_task.specs.View.{parts, suspension_of, empty};

mod futures;
mod handles;
mod timers;

use crate::awaits::suspend;
use crate::running::Running;
use crate::suspension::Suspension;
use crate::tasks::{
    add, begin, call_soon, cancels_of, finish, future_of, input_of, uncancel, waiter_of,
};
use aio_base::{Action, Exc, Input, Memory, Value};
use aio_cancel::{Awaitables, Marks, Notes, WalkStack, cancel};
use aio_future::FutureId;
use aio_ready::Ticket;
use aio_timer::Timers;
use std::alloc::Global;
use std::marker::Model;

/// The pending handles, the timers, the futures and the tasks, the time and the profile. Contracts
/// see a `View` of them, and its `parts` as the definitions have them. A call that answers `Memory`
/// leaves them as they were.
#[derive(Drop)]
pub struct Parts {
    body: Awaitables,
    timers: Timers,
    // what a request needs; its room is made as tasks and futures are
    stack: WalkStack,
    seen: Marks,
    notes: Notes,
    time: u64,
    profile: u8,
    // whose step was taken from the queue and hasn't begun
    called: Option<u32>,
    running: Option<Running>,
}

impl Model for Parts {
    ghost use Rattle.aio_task.specs.View.{View};
    ghost use Rattle.aio_task.specs.Code.{coded_view};

    ghost Value = { View };

    ghost coded = { coded_view };

    ghost use Rattle.aio_task.specs.Kept.{view_of, IsKept, HasRoom};

    ghost view = { λ a. view_of a.time a.profile a.body a.timers a.running a.called };

    ghost invariant = { λ a. IsKept (view_of a.time a.profile a.body a.timers a.running a.called)
        × HasRoom (view_of a.time a.profile a.body a.timers a.running a.called)
        a.stack a.seen a.notes };
}

impl Parts {
    /// Nothing is pending, no timer lives, and there are no futures and no tasks. The time is 0.
    pub fn new(alloc: Global, profile: u8) -> Result<Parts, Memory>
        ensures { IfOk result (λ made. made ≡ empty profile) }
    {
        let body = Awaitables::new(alloc)?;
        let timers = Timers::new(alloc)?;
        Ok(Parts {
            body,
            timers,
            stack: WalkStack::new(alloc),
            seen: Marks::new(alloc),
            notes: Notes::new(alloc),
            time: 0,
            profile,
            called: None,
            running: None,
        })
    }

    /// What holds at every moment: the type keeps it, and this call does nothing but to say so.
    /// While no step is called, each task that lives has one way on, the running one none, and a
    /// mark stands only where it may; nothing waits in a cycle.
    pub fn keeps(&self)
        ensures one_way { self.now.called ≡ None → HasOneWay self.now.running (parts self.now) }
        ensures ready { self.now.called ≡ None → IsReady (parts self.now) }
        ensures must_cancel { self.now.called ≡ None
            → MustCancelWaits self.now.running (parts self.now) }
        ensures no_cycle { HasNoCycle (parts self.now) }
        ensures owns { self.now.called ≡ None → OwnsFutures (parts self.now) }
        ensures waits { (task on : ℕ) → self.now.called ≡ None
            → tasks.waiter_of (parts self.now) task ≡ Some on
            → on < length self.now.futures }
        ensures runs { (task : ℕ) → self.now.called ≡ None → self.now.running ≡ Some task
            → tasks.lives (parts self.now) task ≡ true }
        ensures called { (task : ℕ) → self.now.called ≡ Some task → self.now.running ≡ None
            → tasks.lives (parts self.now) task ≡ true }
    {
        let _time = self.time;
    }

    /// The time, in milliseconds.
    pub fn now(&self) -> u64
        ensures { result ≡ self.now.time }
    {
        self.time
    }

    /// The profile of the script: by which rules it is run.
    pub fn profile(&self) -> u8
        ensures { result ≡ self.now.profile }
    {
        self.profile
    }

    /// Sets the time. It is a number of a script.
    pub fn set_now(&mut self, now: u64)
        requires { now ≤ most }
        ensures { self.new ≡ record self.old { time = now } }
    {
        self.time = now;
    }

    /// A new task, whose first step is called soon, and its number.
    pub fn spawn(&mut self, alloc: Global) -> Result<u32, Memory>
        requires idle { self.old.called ≡ None }
        ensures number { IfOk result (λ task. task ≡ length self.old.tasks) }
        ensures after { OnOk result (parts self.new ≡ tasks.spawn (parts self.old)) }
        ensures queue { OnOk result
            (self.new.queue ≡ queue.soon (action.Step (length self.old.tasks)) self.old.queue) }
        ensures frame { OnOk result (self.new ≡ record self.old {
          queue = self.new.queue;
          futures = self.new.futures;
          tasks = self.new.tasks;
        }) }
        ensures err { OnErr result (self.new ≡ self.old) }
    {
        self.stack.announce()?;
        self.seen.announce()?;
        add(&mut self.body, alloc)
    }

    /// A task's step begins, by the handle that was taken from the queue: the task waits no more,
    /// and must_cancel is used up by the input. The task is then running.
    pub fn begin_step(&mut self, task: u32, ticket: Ticket, input: Input) -> Input
        requires called { self.old.called ≡ Some task }
        requires alone { self.old.running ≡ None }
        ensures input { result ≡ (tasks.begin_step task input (parts self.old)).input }
        ensures after { parts self.new ≡ (tasks.begin_step task input (parts self.old)).parts }
        ensures frame { self.new
            ≡ record self.old { tasks = self.new.tasks; running = Some task; called = None } }
    {
        let must_cancel = begin(&mut self.body, task);
        self.called = None;
        self.running = Some(Running { task, ticket });
        input_of(must_cancel, input)
    }

    /// A bare `yield`: the running task's next step is called soon. No task is running then.
    pub fn pause(&mut self, task: u32)
        requires idle { self.old.called ≡ None }
        requires running { self.old.running ≡ Some task }
        ensures after { parts self.new ≡ tasks.pause task (parts self.old) }
        ensures frame { self.new
            ≡ record self.old {
              queue = queue.soon (action.Step task) self.old.queue;
              running = None;
            } }
    {
        let Some(step) = self.running.take() else {
            return;
        };
        call_soon(&mut self.body, step.ticket, Action::Step(task));
    }

    /// The running task awaits a pending future, and runs no more. An await without an end is
    /// refused by a step that throws.
    pub fn suspend(&mut self, task: u32, on: FutureId) -> Suspension
        requires idle { self.old.called ≡ None }
        requires running { self.old.running ≡ Some task }
        requires pending { is_pending_at (slice_get self.old.futures on) ≡ true }
        ensures answer { result ≡ suspension_of (cycle (parts self.old) task on) }
        ensures after { parts self.new ≡ (suspend_of task on (parts self.old)).parts }
        ensures queue { Appended self.old.queue self.new.queue }
        ensures frame { self.new ≡ record self.old {
          queue = self.new.queue;
          futures = self.new.futures;
          tasks = self.new.tasks;
          running = None;
        } }
    {
        let Some(step) = self.running.take() else {
            return Suspension::Suspended;
        };
        suspend(
            task,
            on,
            step.ticket,
            &mut self.body,
            &mut self.seen,
            &mut self.notes,
            &mut self.stack,
        )
    }

    /// The running task returned or raised, and is done. No task is running then.
    pub fn finish(&mut self, task: u32, end: Result<Value, Exc>)
        requires idle { self.old.called ≡ None }
        requires running { self.old.running ≡ Some task }
        ensures after { parts self.new ≡ tasks.finish task end (parts self.old) }
        ensures queue { Appended self.old.queue self.new.queue }
        ensures frame { self.new ≡ record self.old {
          queue = self.new.queue;
          futures = self.new.futures;
          tasks = self.new.tasks;
          running = None;
        } }
    {
        self.running = None;
        finish(&mut self.body, task, end);
        self.stack.retire();
    }

    /// A request to cancel a future, a task's among them. The answer is false exactly where it
    /// can't reach anything.
    pub fn cancel(&mut self, target: FutureId) -> bool
        requires idle { self.old.called ≡ None }
        ensures after { parts self.new ≡ (request.cancel target (parts self.old)).parts }
        ensures answer { result ≡ (request.cancel target (parts self.old)).answer }
        ensures spent { result ≡ not (is_spent (parts self.old) target) }
        ensures queue { Appended self.old.queue self.new.queue }
        ensures frame { self.new ≡ record self.old {
          queue = self.new.queue;
          futures = self.new.futures;
          tasks = self.new.tasks;
        } }
    {
        cancel(
            target,
            &mut self.body,
            &mut self.seen,
            &mut self.notes,
            &mut self.stack,
        )
    }

    /// How many requests to cancel a task count, those that were taken back not among them.
    pub fn cancelling(&self, task: u32) -> u64
        ensures { result ≡ tasks.cancelling (parts self.now) task }
    {
        cancels_of(&self.body, task)
    }

    /// A positive count falls by one, and the answer is the count then. What waits for the task's
    /// next step goes on waiting; in profile 2 no more where the count falls to 0 by it
    /// (`uncancel` of `tasks.py` is that of profile 1).
    pub fn uncancel(&mut self, task: u32) -> u64
        requires idle { self.old.called ≡ None }
        ensures after { parts self.new
            ≡ tasks.uncancel (profile_named self.old.profile) task (parts self.old) }
        ensures answer { result ≡ tasks.cancelling (parts self.new) task }
        ensures frame { self.new ≡ record self.old { tasks = self.new.tasks } }
    {
        uncancel(&mut self.body, self.profile, task);
        cancels_of(&self.body, task)
    }

    /// How many tasks were made.
    pub fn tasks(&self) -> usize
        ensures { result ≡ length self.now.tasks }
    {
        self.body.tasks.len()
    }

    /// What a task waits for.
    pub fn waiter(&self, task: u32) -> Option<FutureId>
        ensures { result ≡ tasks.waiter_of (parts self.now) task }
    {
        waiter_of(&self.body, task)
    }

    /// A task's own future.
    pub fn future_of(&self, task: u32) -> FutureId
        ensures { result ≡ tasks.future_of (parts self.now) task }
    {
        future_of(&self.body, task)
    }
}
