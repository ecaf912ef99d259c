//! The parts of a task's step.
ghost use Rattle.std.specs.Prelude.{◌≡◌, [], ◌∷◌, true, Some, None, Ok, Err, codes};
ghost use Rattle.model_value.specs.declared.input.Input.TheVariants.{Send, Throw};
ghost use Rattle.model_value.specs.declared.kind.Kind.TheVariants.{CancelledError, RuntimeError};
ghost use Rattle.model_value.specs.declared.outcome.Outcome.TheVariants.{Value as Returned, Failed, Cancelled};
ghost use Rattle.model_value.specs.declared.action.Action.TheVariants.{Step, StepInCycle, HandlerDone};
ghost use Rattle.model_value.specs.declared.action.CycleKind.TheVariants.{Itself, ItsWaiter};
ghost use Rattle.model_value.specs.Value.{Nothing, Truth, exception_of};
ghost use Rattle.model_loop.specs.Futures.{register};
ghost use Rattle.model_loop.specs.Handles.{due, revoke};
ghost use Rattle.model_loop.specs.Parts.{One};
ghost use Rattle.model_loop.specs.Tasks.{spawn, pause, begin_step, cancelled_error, finish, uncancel, cancelling};
ghost use Rattle.model_loop.specs.Cycles.{cycle, cycle_exception};
ghost use Rattle.model_loop.specs.Ledger.{Asked, ByWait, unbooked};
ghost use Rattle.model_loop.specs.Suspend.{suspend};
ghost use Rattle.law_steps.specs.Frames.{taken};
ghost use Rattle.row_loop.specs.Made.{handle, value_error};
ghost use Rattle.row_loop.specs.Steps.{nothing_made, one_task, two_tasks, running, running_must_cancel, sleeping, woken_at_once, running_over_none, waits_for_none, begun, woken_and_must_cancel, paused, ended_as, ended_must_cancel_as, ended_counted_as, awaited, handled, handler_runs, handler_ended, three_timers, two_due, two_revoked};

/// Tasks and their futures are numbered in order of making.
pub fn makes_tasks()
    ensures one { spawn nothing_made ≡ one_task }
    ensures two { spawn one_task ≡ two_tasks }
{}

/// A task that need not cancel waits; one that must cancel cancels what it waits for, and keeps its
/// must_cancel where it can't.
pub fn suspends()
    ensures cleared { suspend 0 1 running ≡ unbooked sleeping }
    ensures must_cancel { suspend 0 1 (running_must_cancel 1)
        ≡ record { parts = woken_at_once 1; entries = Asked (ByWait 0) ∷ [] } }
    ensures over_none { suspend 0 1 running_over_none
        ≡ record { parts = waits_for_none; entries = Asked (ByWait 0) ∷ [] } }
{}

/// An await of the task itself or of what waits for it is refused by a step that throws.
pub fn refuses_cycles()
    ensures itself { suspend 0 0 running ≡ unbooked (paused (StepInCycle 0 Itself)) }
    ensures its_waiter { suspend 0 1 (awaited [] 3)
        ≡ unbooked (awaited (handle 3 3 (StepInCycle 0 ItsWaiter) ∷ []) 4) }
    ensures through_many { cycle (awaited [] 3) 0 3 ≡ Some ItsWaiter }
    ensures elsewhere { cycle (awaited [] 3) 0 2 ≡ None }
    ensures itself_text { cycle_exception Itself
        ≡ exception_of RuntimeError (codes "Task cannot await on itself") }
{}

/// A step clears must_cancel and throws CancelledError, but for an input that throws one already.
pub fn begins_steps()
    ensures parts { (begin_step 0 (Send Nothing) (taken [] (woken_and_must_cancel 2))).parts
        ≡ begun 2 }
    ensures sent { (begin_step 0 (Send Nothing) (taken [] (woken_and_must_cancel 2))).input
        ≡ Throw cancelled_error }
    ensures thrown { (begin_step 0 (Throw (value_error (codes "a")))
        (taken [] (woken_and_must_cancel 2))).input
        ≡ Throw cancelled_error }
    ensures cancelled { (begin_step 0 (Throw (exception_of CancelledError (codes "a")))
        (taken [] (woken_and_must_cancel 2))).input
        ≡ Throw (exception_of CancelledError (codes "a")) }
    ensures cleared { (begin_step 0 (Send (Truth true)) (taken [] (paused (Step 0)))).input
        ≡ Send (Truth true) }
{}

/// What a step ends with.
pub fn ends_steps()
    ensures pauses { pause 0 running ≡ paused (Step 0) }
    ensures returns { finish 0 (Ok (Truth true)) running ≡ ended_as (Returned (Truth true)) }
    ensures returns_must_cancel { finish 0 (Ok (Truth true)) (running_must_cancel 1)
        ≡ ended_counted_as Cancelled }
    ensures raises { finish 0 (Err (value_error (codes "a"))) running
        ≡ ended_as (Failed (value_error (codes "a"))) }
    ensures raises_cancelled { finish 0 (Err (exception_of CancelledError (codes "a"))) running
        ≡ ended_as Cancelled }
    ensures raises_must_cancel { finish 0 (Err (value_error (codes "a"))) (running_must_cancel 1)
        ≡ ended_must_cancel_as (Failed (value_error (codes "a"))) }
{}

/// What is called when a connection's handler is done waits for its task, and is called soon once
/// that has ended, however it did.
pub fn hears_handlers()
    ensures registers { register 1 (HandlerDone 0 1) two_tasks ≡ handled }
    ensures returns { finish 1 (Ok (Truth true)) handler_runs
        ≡ handler_ended (Returned (Truth true)) }
    ensures raises { finish 1 (Err (value_error (codes "a"))) handler_runs
        ≡ handler_ended (Failed (value_error (codes "a"))) }
    ensures late { register 1 (HandlerDone 0 1)
        (finish 1 (Ok (Truth true)) (record handler_runs { futures = two_tasks.futures }))
        ≡ handler_ended (Returned (Truth true)) }
{}

/// `uncancel` lowers a positive count, and in profile 1 leaves must_cancel.
pub fn uncancels()
    ensures lowers { uncancel One 0 (running_must_cancel 2) ≡ running_must_cancel 1 }
    ensures last { uncancel One 0 (running_must_cancel 1) ≡ running_must_cancel 0 }
    ensures at_none { uncancel One 0 (running_must_cancel 0) ≡ running_must_cancel 0 }
    ensures count { cancelling (running_must_cancel 2) 0 ≡ 2 }
{}

/// Timers fall due by deadline; a timer that is revoked is gone, and a pending handle keeps its
/// place.
pub fn timers_fall_due()
    ensures due { due three_timers ≡ two_due }
    ensures revoked { revoke 1 (revoke 2 two_due) ≡ two_revoked }
{}
