//! Cancel requests.
ghost use Rattle.std.specs.Prelude.{◌≡◌, [], ◌∷◌, true, false};
ghost use Rattle.model_value.specs.declared.input.Input.TheVariants.{Throw};
ghost use Rattle.model_loop.specs.Cancel.{cancel, cancel_with, answers};
ghost use Rattle.model_loop.specs.Tasks.{begin_step, cancelled_error};
ghost use Rattle.model_loop.specs.Spent.{is_spent};
ghost use Rattle.model_loop.specs.Cycles.{leads};
ghost use Rattle.model_loop.specs.Ledger.{unbooked};
ghost use Rattle.model_loop.specs.Suspend.{suspend};
ghost use Rattle.law_steps.specs.Frames.{taken};
ghost use Rattle.row_loop.specs.Steps.{sleeping, woken_at_once, woken_and_must_cancel, begun};
ghost use Rattle.row_loop.specs.Cancels.{chain, chain_cancelled, chain_cancelled_twice, chain_cut, one_of_two, one_of_two_cancelled, two_on_one, two_on_one_cancelled, twice_to_one, twice_to_one_cancelled, two_ways, two_ways_cancelled, awaited_runs, refused, refused_must_cancel, member_runs, member_refused, member_refused_must_cancel, free_task, free_task_cancelled, full_count, full_count_cancelled, all_done};

/// A request goes down a chain of three tasks, each of which counts it.
pub fn down_a_chain()
    ensures first { cancel 0 chain ≡ answers true (0 ∷ 1 ∷ 2 ∷ []) chain_cancelled }
    ensures second { cancel 0 chain_cancelled
        ≡ answers true (0 ∷ 1 ∷ 2 ∷ []) chain_cancelled_twice }
    ensures at_its_end { cancel 3 chain ≡ answers true [] chain_cut }
    ensures leads { leads chain 0 3 ≡ true }
    ensures not_back { leads chain 3 0 ≡ false }
{}

/// One member is done, so the other is cancelled; then there is none left to cancel.
pub fn one_member_done()
    ensures first { cancel 2 one_of_two ≡ answers true [] one_of_two_cancelled }
    ensures second { cancel 2 one_of_two_cancelled ≡ answers false [] one_of_two_cancelled }
    ensures reachable { is_spent one_of_two 2 ≡ false }
    ensures spent { is_spent one_of_two_cancelled 2 ≡ true }
{}

/// A future that stands for no other that can be cancelled is spent, whether it stands for some or
/// none.
pub fn no_member_left()
    ensures all_done { cancel 2 all_done ≡ answers false [] all_done }
    ensures none { cancel 3 all_done ≡ answers false [] all_done }
    ensures nested { cancel 4 all_done ≡ answers false [] all_done }
    ensures done { cancel 0 all_done ≡ answers false [] all_done }
    ensures no_future { cancel 9 all_done ≡ answers false [] all_done }
    ensures spent { is_spent all_done 4 ≡ true }
{}

/// Two requests come before the task's step: the first ends what it waits for, the second sets
/// must_cancel of it, and one throw of CancelledError uses both up.
pub fn two_before_one_step()
    ensures first { cancel 0 sleeping ≡ answers true (0 ∷ []) (woken_at_once 1) }
    ensures second { cancel 0 (woken_at_once 1) ≡ answers true (0 ∷ []) (woken_and_must_cancel 2) }
    ensures step { begin_step 0 (Throw cancelled_error) (taken [] (woken_and_must_cancel 2))
        ≡ record { parts = begun 2; input = Throw cancelled_error } }
{}

/// Two members wait for one future: the second finds it done, and must cancel.
pub fn two_tasks_on_one_future()
    ensures { cancel 3 two_on_one ≡ answers true (0 ∷ 1 ∷ []) two_on_one_cancelled }
{}

/// A task that a request comes to twice counts it once.
pub fn a_task_reached_twice()
    ensures { cancel 3 twice_to_one ≡ answers true (0 ∷ []) twice_to_one_cancelled }
{}

/// A request that comes to a task by two ways goes on from it once: the second way is told that it
/// can be cancelled, so nobody on it must cancel.
pub fn by_two_ways()
    ensures request { cancel 0 two_ways ≡ answers true (0 ∷ 1 ∷ 3 ∷ 2 ∷ []) two_ways_cancelled }
    ensures already_seen { cancel_with 0 (0 ∷ []) two_ways ≡ answers true (0 ∷ []) two_ways }
    ensures leads { leads two_ways 0 4 ≡ true }
    ensures not_back { leads two_ways 4 0 ≡ false }
    ensures not_round { leads two_ways 3 3 ≡ false }
{}

/// No cycle is closed: the wait that would is refused. So a request to either task ends where the
/// refused one will be stepped.
pub fn round_no_cycle()
    ensures leads_back { leads awaited_runs 0 1 ≡ true }
    ensures refused { suspend 1 0 awaited_runs ≡ unbooked (refused 0 0) }
    ensures of_two { cancel 0 (refused 0 0) ≡ answers true (0 ∷ 1 ∷ []) (refused_must_cancel 1 1) }
    ensures from_the_other_side { cancel 1 (refused 0 0)
        ≡ answers true (1 ∷ []) (refused_must_cancel 0 1) }
    ensures leads_round { leads member_runs 2 1 ≡ true }
    ensures not_back { leads member_runs 2 0 ≡ false }
    ensures refused_many { suspend 1 2 member_runs ≡ unbooked member_refused }
    ensures through_many { cancel 0 member_refused
        ≡ answers true (0 ∷ 1 ∷ []) member_refused_must_cancel }
{}

/// A task that waits for nothing must cancel, and a count at its greatest stays.
pub fn a_task_that_waits_for_nothing()
    ensures must_cancel { cancel 0 free_task ≡ answers true (0 ∷ []) free_task_cancelled }
    ensures at_the_greatest { cancel 0 full_count ≡ answers true (0 ∷ []) full_count_cancelled }
{}
