//! One task.
ghost use Rattle.std.specs.Prelude.{◌≡◌, ◌-◌, true, false, None};
ghost use Rattle.model_loop.specs.Tasks.{one_more};
ghost use Rattle.aio_cancel.specs.Waits.{waiter_in, must_cancel_in};

use aio_future::FutureId;
use std::marker::Model;

// A count of cancels stays at the greatest number of a script.
const MOST: u64 = 0x7FFF_FFFF_FFFF_FFFF;

/// What a task waits for, if it waits, and whether a cancel waits for its next step: in one, which
/// takes the fewest bytes.
#[derive(Clone, Copy)]
enum Wait {
    Nothing { must_cancel: bool },
    Future { must_cancel: bool, on: FutureId },
}

/// A task: its future, how often its cancel was asked for, what it waits for, and whether a cancel
/// waits for its next step.
#[derive(Drop)]
pub struct Task {
    future: FutureId,
    cancels: u64,
    wait: Wait,
}

impl Model for Task {
    ghost use Rattle.model_loop.specs.Parts as plain;
    ghost use Rattle.aio_cancel.specs.Code.{coded_task};

    ghost Value = { plain.Task };

    ghost coded = { coded_task };

    ghost use Rattle.aio_cancel.specs.Waits.{waiter_in, must_cancel_in};

    ghost view = { λ a. record {
      future = a.future;
      waiter = waiter_in a.wait;
      cancels = a.cancels;
      must_cancel = must_cancel_in a.wait;
    } };
}

impl Task {
    /// A task that waits for nothing.
    pub fn new(future: FutureId) -> Task
        ensures { result
            ≡ record { future = future; waiter = None; cancels = 0; must_cancel = false } }
    {
        Task {
            future,
            cancels: 0,
            wait: Wait::Nothing { must_cancel: false },
        }
    }

    /// The task's own future.
    pub fn future(&self) -> FutureId
        ensures { result ≡ self.now.future }
    {
        self.future
    }

    /// What the task waits for (`_fut_waiter` of `tasks.py`).
    pub fn waiter(&self) -> Option<FutureId>
        ensures { result ≡ self.now.waiter }
    {
        match self.wait {
            Wait::Nothing { must_cancel: _ } => None,
            Wait::Future { must_cancel: _, on } => Some(on),
        }
    }

    /// How many cancel requests are counted (`cancelling` of `tasks.py`).
    pub fn cancels(&self) -> u64
        ensures { result ≡ self.now.cancels }
    {
        self.cancels
    }

    /// Whether a cancel waits for the next step (`_must_cancel` of `tasks.py`).
    pub fn must_cancel_of(&self) -> bool
        ensures { result ≡ self.now.must_cancel }
    {
        match self.wait {
            Wait::Nothing { must_cancel } => must_cancel,
            Wait::Future { must_cancel, on: _ } => must_cancel,
        }
    }

    /// Sets what the task waits for, or that it waits for nothing.
    pub fn set_waiter(&mut self, waiter: Option<FutureId>)
        ensures { self.new ≡ record self.old { waiter = waiter } }
    {
        let must_cancel = self.must_cancel_of();
        self.wait = wait_with(must_cancel, waiter);
    }

    /// Counts one cancel request more; at 9,223,372,036,854,775,807 the count stays.
    pub fn raise(&mut self)
        ensures { self.new ≡ record self.old { cancels = one_more self.old.cancels } }
    {
        if self.cancels < MOST {
            self.cancels += 1;
        }
    }

    /// Counts one cancel request less; at 0 the count stays (`uncancel` of `tasks.py`).
    pub fn lower(&mut self)
        ensures { self.new ≡ record self.old { cancels = self.old.cancels - 1 } }
    {
        self.cancels = self.cancels.saturating_sub(1);
    }

    /// A cancel waits for the next step.
    pub fn set_must_cancel(&mut self)
        ensures { self.new ≡ record self.old { must_cancel = true } }
    {
        let waiter = self.waiter();
        self.wait = wait_with(true, waiter);
    }

    /// No cancel waits for the next step any more.
    pub fn clear_must_cancel(&mut self)
        ensures { self.new ≡ record self.old { must_cancel = false } }
    {
        let waiter = self.waiter();
        self.wait = wait_with(false, waiter);
    }
}

fn wait_with(must_cancel: bool, waiter: Option<FutureId>) -> Wait
    ensures waiter { waiter_in result ≡ waiter }
    ensures mark { must_cancel_in result ≡ must_cancel }
{
    match waiter {
        None => Wait::Nothing { must_cancel },
        Some(on) => Wait::Future { must_cancel, on },
    }
}
