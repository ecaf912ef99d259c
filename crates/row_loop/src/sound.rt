//! Each state in which rows begin is sound: the loop's own operations make it of one in which
//! nothing was made. Only the count at its greatest is written with as many entries of the ledger
//! beside it. The states are of profile 1 where none is named.
ghost use Rattle.std.specs.Prelude.{◌++◌, [], ◌∷◌, Some, None};
ghost use Rattle.model_value.specs.declared.action.Action.TheVariants.{Step};
ghost use Rattle.model_loop.specs.Loop.{Expired, Expiring};
ghost use Rattle.row_loop.specs.Cancels.{chain, chain_cancelled, one_of_two, one_of_two_cancelled, all_done, two_on_one, twice_to_one, two_ways, awaited_runs, refused, member_runs, member_refused, free_task, full_count};
ghost use Rattle.row_loop.specs.Family.{loop_of, unentered, in_block, parent_alone, parent_with_child, last_was_told, child_failed, parent_woken, both_failed, told_nothing, told_one, all_woken, cancelled_body, asked_before, three_children};
ghost use Rattle.row_loop.specs.Ledgers.{main_done};
ghost use Rattle.row_loop.specs.Nested.{before, both_due, outer_fired, stepping, both_asked, inner_took, alone_due, alone_left, alone_waiting, expiring_alone, expiring_and_asked, expiring_and_lowered};
ghost use Rattle.row_loop.specs.ProfileTwo.{child_left, child_over, must_cancel_at_exit};
ghost use Rattle.row_loop.specs.Standing.{LoopStands, PartsStand, PartsStandInBoth, under};
ghost use Rattle.model_loop.specs.Parts.{Profile, Two};
ghost use Rattle.row_loop.specs.Steps.{nothing_made, one_task, running, running_must_cancel, sleeping, woken_at_once, woken_and_must_cancel, paused, running_over_none, awaited, handled, handler_runs, three_timers, two_due};

/// Requests are made in these.
pub fn requests_begin_in_sound_states()
    ensures chain { PartsStand None chain }
    ensures chain_cancelled { PartsStand None chain_cancelled }
    ensures one_of_two { PartsStand None one_of_two }
    ensures one_of_two_cancelled { PartsStand None one_of_two_cancelled }
    ensures all_done { PartsStand None all_done }
    ensures two_on_one { PartsStand None two_on_one }
    ensures twice_to_one { PartsStand None twice_to_one }
    ensures two_ways { PartsStand None two_ways }
    ensures awaited_runs { PartsStand (Some 1) awaited_runs }
    ensures refused { PartsStand None (refused 0 0) }
    ensures member_runs { PartsStand (Some 1) member_runs }
    ensures member_refused { PartsStand None member_refused }
    ensures free_task { PartsStand (Some 0) free_task }
    ensures full_count { PartsStand (Some 0) full_count }
{}

/// Steps and their parts, what the ledger books, and the end of a run.
pub fn steps_begin_in_sound_states()
    ensures nothing_made { PartsStand None nothing_made }
    ensures one_task { PartsStand None one_task }
    ensures running { PartsStand (Some 0) running }
    ensures must_cancel_once { PartsStand (Some 0) (running_must_cancel 1) }
    ensures must_cancel_twice { PartsStand (Some 0) (running_must_cancel 2) }
    ensures must_cancel_uncounted { PartsStand (Some 0) (running_must_cancel 0) }
    ensures sleeping { PartsStand None sleeping }
    ensures woken_at_once { PartsStand None (woken_at_once 1) }
    ensures woken_and_must_cancel { PartsStand None (woken_and_must_cancel 2) }
    ensures paused { PartsStand None (paused (Step 0)) }
    ensures over_none { PartsStand (Some 0) running_over_none }
    ensures awaited { PartsStand (Some 0) (awaited [] 3) }
    ensures handled { PartsStand None handled }
    ensures handler_runs { PartsStand (Some 1) handler_runs }
    ensures timers { PartsStand None three_timers }
    ensures due { PartsStand None two_due }
    ensures main_done { LoopStands None main_done }
{}

/// Timeouts.
pub fn timeouts_begin_in_sound_states()
    ensures before { LoopStands (Some 0) before }
    ensures both_due { LoopStands None both_due }
    ensures outer_fired { LoopStands None outer_fired }
    ensures inner_leaves { LoopStands (Some 0) (stepping 2 Expiring Expiring both_asked) }
    ensures outer_leaves { LoopStands (Some 0)
        (stepping 1 Expiring Expired (both_asked ++ inner_took)) }
    ensures due { LoopStands (Some 0) alone_due }
    ensures left { LoopStands (Some 0) alone_left }
    ensures waiting { LoopStands (Some 0) alone_waiting }
    ensures expiring { LoopStands (Some 0) expiring_alone }
    ensures asked_too { LoopStands (Some 0) expiring_and_asked }
    ensures lowered { LoopStands (Some 0) expiring_and_lowered }
{}

/// Groups. The parent's block is entered by the task that runs.
pub fn groups_begin_in_sound_states()
    ensures unentered { LoopStands (Some 0) (loop_of parent_alone unentered []) }
    ensures in_block { LoopStands (Some 0) (loop_of parent_alone (in_block []) []) }
    ensures with_child { LoopStands (Some 0) (loop_of parent_with_child (in_block (1 ∷ [])) []) }
    ensures last_was_told { LoopStands (Some 0) last_was_told }
    ensures child_failed { LoopStands None child_failed }
    ensures parent_woken { LoopStands (Some 0) parent_woken }
    ensures both_failed { LoopStands (Some 0) both_failed }
    ensures told_nothing { LoopStands None told_nothing }
    ensures told_one { LoopStands None told_one }
    ensures all_woken { LoopStands (Some 0) all_woken }
    ensures cancelled_body { LoopStands (Some 0) (cancelled_body 1 []) }
    ensures asked_body { LoopStands (Some 0) (cancelled_body 2 asked_before) }
    ensures three_children { LoopStands (Some 0) three_children }
{}

/// Those of profile 2, and of both.
pub fn profile_two_begins_in_sound_states()
    ensures must_cancel_once { PartsStandInBoth (Some 0) (running_must_cancel 1) }
    ensures must_cancel_twice { PartsStandInBoth (Some 0) (running_must_cancel 2) }
    ensures with_child { LoopStands (Some 0)
        (under Two (loop_of parent_with_child (in_block (1 ∷ [])) [])) }
    ensures child_failed { LoopStands None (under Two child_failed) }
    ensures parent_woken { LoopStands (Some 0) (under Two parent_woken) }
    ensures cancelled_body { LoopStands (Some 0) (under Two (cancelled_body 1 [])) }
    ensures asked_body { LoopStands (Some 0) (under Two (cancelled_body 2 asked_before)) }
    ensures child_left { (profile : Profile) → LoopStands (Some 0) (under profile child_left) }
    ensures child_over { LoopStands (Some 0) (child_over 1 9 []) }
    ensures asked_child_over { LoopStands (Some 0) (child_over 2 12 asked_before) }
    ensures at_exit { (profile : Profile)
        → LoopStands (Some 0) (under profile must_cancel_at_exit) }
{}
