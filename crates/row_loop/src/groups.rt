//! Task groups, in profile 1.
ghost use Rattle.std.specs.Prelude.{◌≡◌, [], ◌∷◌, true, Some, None, codes};
ghost use Rattle.model_value.specs.declared.input.Input.TheVariants.{Send, Throw};
ghost use Rattle.model_value.specs.Value.{Nothing};
ghost use Rattle.model_loop.specs.Tasks.{cancelled_error};
ghost use Rattle.model_loop.specs.Groups.{NotEntered, IsFinished, IsShuttingDown, refusal, refusal_text, make_group, enter_group, create, child_done, exit_begin, exit_woken, Waits, Passes, Raises, exception_group};
ghost use Rattle.model_loop.specs.Loop.{in_parts};
ghost use Rattle.law_steps.specs.Frames.{taken};
ghost use Rattle.row_loop.specs.Family.{loop_of, a, b, c, group_error, unentered, in_block, parent_alone, parent_with_child, waiting_for_child, child_failed, failure_counted, parent_woken, failure_left, both_failed, body_failed, told_nothing, told_one, told_both, all_woken, all_left, cancelled_body, cancelled_left, asked_before, tells_second, three_children, three_aborted, last_was_told, passed, passed_on, nested};

/// A group is made, entered and given a task.
pub fn makes_tasks()
    ensures made { make_group 0 (record (loop_of parent_alone unentered []) { groups = [] })
        ≡ loop_of parent_alone unentered [] }
    ensures entered { enter_group 0 (loop_of parent_alone unentered [])
        ≡ loop_of parent_alone (in_block []) [] }
    ensures task { create 0 (loop_of parent_alone (in_block []) [])
        ≡ loop_of parent_with_child (in_block (1 ∷ [])) [] }
{}

/// When no task is made: the first cause that holds.
pub fn refuses_tasks()
    ensures not_entered { refusal unentered ≡ Some NotEntered }
    ensures finished { refusal (record (in_block []) { exiting = true; aborting = true })
        ≡ Some IsFinished }
    ensures shutting_down { refusal (record (in_block (1 ∷ [])) { exiting = true; aborting = true })
        ≡ Some IsShuttingDown }
    ensures exiting { refusal (record (in_block (1 ∷ [])) { exiting = true }) ≡ None }
    ensures stays { create 0 last_was_told ≡ last_was_told }
    ensures text { refusal_text IsShuttingDown ≡ codes "TaskGroup is shutting down" }
{}

/// A task fails while the exit waits: the parent's count stays raised by one.
pub fn child_fails_while_exit_waits()
    ensures begins { exit_begin None 0 (loop_of parent_with_child (in_block (1 ∷ [])) [])
        ≡ record { loop = waiting_for_child; answer = Waits 2 } }
    ensures fails { child_done 0 1 (in_parts (taken []) child_failed) ≡ failure_counted }
    ensures ends { exit_woken (Throw cancelled_error) 0 parent_woken
        ≡ record { loop = failure_left; answer = Raises (group_error (a ∷ [])) } }
{}

/// Two tasks and then the body fail: the body's failure comes last.
pub fn children_and_body_fail()
    ensures begins { exit_begin (Some c) 0 both_failed
        ≡ record { loop = body_failed; answer = Waits 3 } }
    ensures first { child_done 0 1 (in_parts (taken tells_second) told_nothing) ≡ told_one }
    ensures second { child_done 0 2 (in_parts (taken []) told_one) ≡ told_both }
    ensures ends { exit_woken (Send Nothing) 0 all_woken
        ≡ record { loop = all_left; answer = Raises (group_error (a ∷ b ∷ c ∷ [])) } }
{}

/// A task failed and the parent was cancelled in the body: the group takes its own cancel back, and
/// raises the failure even where another cancel of the parent is left.
pub fn takes_its_cancel_back()
    ensures own_alone { exit_begin (Some cancelled_error) 0 (cancelled_body 1 [])
        ≡ record { loop = cancelled_left 0 [] None; answer = Raises (group_error (a ∷ [])) } }
    ensures another_too { exit_begin (Some cancelled_error) 0 (cancelled_body 2 asked_before)
        ≡ record {
          loop = cancelled_left 1 asked_before (Some cancelled_error);
          answer = Raises (group_error (a ∷ []));
        } }
{}

/// A cancel of the parent while the exit waits aborts the group: each task that lives is cancelled.
pub fn parent_cancelled_while_exit_waits()
    ensures { exit_woken (Throw cancelled_error) 0 three_children
        ≡ record { loop = three_aborted; answer = Waits 6 } }
{}

/// How an exit ends without failures.
pub fn ends_without_failures()
    ensures passes { exit_begin None 0 (loop_of parent_alone (in_block []) [])
        ≡ record { loop = passed; answer = Passes } }
    ensures kept { exit_begin (Some cancelled_error) 0 (loop_of parent_alone (in_block []) [])
        ≡ record { loop = passed_on; answer = Raises cancelled_error } }
    ensures waited { (exit_woken (Send Nothing) 0 last_was_told).answer ≡ Passes }
{}

/// A group of exceptions that would nest deeper than 64 loses its members.
pub fn bounds_the_depth()
    ensures at_the_bound { exception_group (nested 62 ∷ []) ≡ group_error (nested 62 ∷ []) }
    ensures beyond { exception_group (nested 63 ∷ []) ≡ group_error [] }
{}
