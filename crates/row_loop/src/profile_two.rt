//! Where the profiles differ: an `uncancel` that lowers a count to 0, and a group that takes its
//! request back. All rows beside these are of profile 1.
ghost use Rattle.std.specs.Prelude.{◌≡◌, ◌++◌, [], ◌∷◌, true, false, Some, None};
ghost use Rattle.model_value.specs.declared.input.Input.TheVariants.{Send, Throw};
ghost use Rattle.model_value.specs.Value.{Nothing};
ghost use Rattle.model_loop.specs.Groups.{child_done, exit_begin, exit_woken, Waits, Raises};
ghost use Rattle.model_loop.specs.Ledger.{Began, ByGroup, ByScript, Took, uncancel_by};
ghost use Rattle.model_loop.specs.Loop.{in_parts};
ghost use Rattle.model_loop.specs.Parts.{One, Two};
ghost use Rattle.model_loop.specs.Tasks.{cancelled_error, uncancel};
ghost use Rattle.model_loop.specs.Timeouts.{exit_timeout};
ghost use Rattle.law_steps.specs.Frames.{taken};
ghost use Rattle.row_loop.specs.Family.{loop_of, a, group_error, in_block, parent_with_child};
ghost use Rattle.row_loop.specs.Family.{waiting_for_child, child_failed, failure_counted};
ghost use Rattle.row_loop.specs.Family.{parent_woken, cancelled_body, cancelled_left, asked_before};
ghost use Rattle.row_loop.specs.Nested.{left};
ghost use Rattle.row_loop.specs.ProfileTwo.{failure_taken_back, one_asked, child_left};
ghost use Rattle.row_loop.specs.ProfileTwo.{child_awaited, child_over, child_taken_back};
ghost use Rattle.row_loop.specs.ProfileTwo.{must_cancel_at_exit, must_cancel_left};
ghost use Rattle.row_loop.specs.ProfileTwo.{must_cancel_cleared};
ghost use Rattle.row_loop.specs.Standing.{under};
ghost use Rattle.row_loop.specs.Steps.{running, running_must_cancel};

/// An `uncancel` that lowers the count to 0 clears must_cancel. One that leaves more doesn't, nor
/// does one that finds 0 and lowers nothing.
pub fn uncancels()
    ensures last { uncancel Two 0 (running_must_cancel 1) ≡ running }
    ensures one_of_two { uncancel Two 0 (running_must_cancel 2) ≡ running_must_cancel 1 }
    ensures at_none { uncancel Two 0 (running_must_cancel 0) ≡ running_must_cancel 0 }
    ensures booked { uncancel_by Two (ByScript 0) 0 (running_must_cancel 1)
        ≡ record { parts = running; entries = Took 0 (ByScript 0) true ∷ [] } }
{}

/// A task fails while the exit waits: the exit takes the group's request back as it ends.
pub fn child_fails_while_exit_waits()
    ensures begins { exit_begin None 0
        (under Two (loop_of parent_with_child (in_block (1 ∷ [])) []))
        ≡ record { loop = under Two waiting_for_child; answer = Waits 2 } }
    ensures fails { child_done 0 1 (in_parts (taken []) (under Two child_failed))
        ≡ under Two failure_counted }
    ensures ends { exit_woken (Throw cancelled_error) 0 (under Two parent_woken)
        ≡ record { loop = failure_taken_back; answer = Raises (group_error (a ∷ [])) } }
{}

/// Where no task is left as the exit begins, it ends at once, as in profile 1.
pub fn takes_its_cancel_back_at_once()
    ensures own_alone { exit_begin (Some cancelled_error) 0 (under Two (cancelled_body 1 []))
        ≡ record {
          loop = under Two (cancelled_left 0 [] None);
          answer = Raises (group_error (a ∷ []));
        } }
    ensures another_too { exit_begin (Some cancelled_error) 0
        (under Two (cancelled_body 2 asked_before))
        ≡ record {
          loop = under Two (cancelled_left 1 asked_before (Some cancelled_error));
          answer = Raises (group_error (a ∷ []));
        } }
{}

/// Where a task is left, profile 1 takes the request back as the exit begins. Profile 2 waits first
/// and takes it back as the exit ends; what was kept is dropped unless another cancel is left.
pub fn takes_its_cancel_back_after_its_tasks()
    ensures profile_one { exit_begin (Some cancelled_error) 0 child_left
        ≡ record {
          loop = child_awaited 0 None (one_asked ++ Began 0 ∷ Took 0 (ByGroup 0) true ∷ []);
          answer = Waits 4;
        } }
    ensures waits { exit_begin (Some cancelled_error) 0 (under Two child_left)
        ≡ record {
          loop = under Two (child_awaited 1 (Some cancelled_error) (one_asked ++ Began 0 ∷ []));
          answer = Waits 4;
        } }
    ensures ends { exit_woken (Send Nothing) 0 (child_over 1 9 [])
        ≡ record {
          loop = child_taken_back 0 9 [] None;
          answer = Raises (group_error (a ∷ []));
        } }
    ensures another_too { exit_woken (Send Nothing) 0 (child_over 2 12 asked_before)
        ≡ record {
          loop = child_taken_back 1 12 asked_before (Some cancelled_error);
          answer = Raises (group_error (a ∷ []));
        } }
{}

/// A timeout's exit that lowers the count to 0: in profile 1 must_cancel stays, in profile 2 it is
/// cleared.
pub fn leaves_timeouts()
    ensures profile_one { exit_timeout (Some cancelled_error) 0 must_cancel_at_exit
        ≡ left true must_cancel_left }
    ensures cleared { exit_timeout (Some cancelled_error) 0 (under Two must_cancel_at_exit)
        ≡ left true must_cancel_cleared }
{}
