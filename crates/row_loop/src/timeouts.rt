//! Timeouts, in profile 1.
ghost use Rattle.std.specs.Prelude.{◌≡◌, ◌++◌, [], ◌∷◌, true, false, Some, None, pos, negsuc, codes};
ghost use Rattle.model_value.specs.declared.kind.Kind.TheVariants.{RuntimeError};
ghost use Rattle.model_value.specs.declared.action.Action.TheVariants.{Wakeup};
ghost use Rattle.model_value.specs.Value.{exception_of};
ghost use Rattle.model_loop.specs.Loop.{Active, Expiring, Expired, Finished, in_parts};
ghost use Rattle.model_loop.specs.Tasks.{cancelled_error};
ghost use Rattle.model_loop.specs.Timeouts.{enter_timeout, reschedule, reschedule_exception, fire, exit_timeout, has_expired};
ghost use Rattle.law_steps.specs.Frames.{taken};
ghost use Rattle.row_loop.specs.Made.{handle, value_error};
ghost use Rattle.row_loop.specs.Nested.{before, entered, both_due, outer_fired, both_fired, stepping, both_asked, inner_took, outer_took, alone_due, alone_later, alone_soon, alone_never, alone_left, alone_waiting, alone_waited, expiring_alone, expiring_and_asked, expiring_and_lowered, fires_inner, left};

/// Both fire in one turn. The inner exit finds a second cancel and lets CancelledError pass, and
/// the outer one raises TimeoutError.
pub fn nested_with_one_deadline()
    ensures entered { enter_timeout 0 (Some (pos 10)) (enter_timeout 0 (Some (pos 10)) before)
        ≡ entered }
    ensures outer_fires { fire 0 (in_parts (taken (fires_inner ∷ [])) both_due) ≡ outer_fired }
    ensures inner_fires { fire 1 (in_parts (taken (handle 3 3 (Wakeup 0) ∷ [])) outer_fired)
        ≡ both_fired }
    ensures inner_passes { exit_timeout (Some cancelled_error) 1
        (stepping 2 Expiring Expiring both_asked)
        ≡ left false (stepping 1 Expiring Expired (both_asked ++ inner_took)) }
    ensures outer_raises { exit_timeout (Some cancelled_error) 0
        (stepping 1 Expiring Expired (both_asked ++ inner_took))
        ≡ left true (stepping 0 Expired Expired (both_asked ++ inner_took ++ outer_took)) }
{}

/// A new deadline gives the old handle up, even one that is pending already.
pub fn reschedules()
    ensures later { reschedule 0 (Some (pos 11)) alone_due ≡ alone_later }
    ensures at_once { reschedule 0 (Some (pos 10)) alone_due ≡ alone_soon }
    ensures before_the_start { reschedule 0 (Some (negsuc 0)) alone_due ≡ alone_soon }
    ensures never { reschedule 0 None alone_due ≡ alone_never }
    ensures refused { reschedule 0 (Some (pos 99)) alone_left ≡ alone_left }
    ensures text { reschedule_exception Finished
        ≡ exception_of RuntimeError (codes "Cannot change state of finished Timeout") }
{}

/// What an exit makes of the exception with which its block ends.
pub fn exits()
    ensures in_time { exit_timeout (Some cancelled_error) 0 alone_due ≡ left false alone_left }
    ensures in_time_with_timer { exit_timeout None 0 alone_waiting ≡ left false alone_waited }
    ensures raises { (exit_timeout (Some cancelled_error) 0 expiring_alone).timed_out ≡ true }
    ensures no_exception { (exit_timeout None 0 expiring_alone).timed_out ≡ false }
    ensures other_exception { (exit_timeout (Some (value_error [])) 0 expiring_alone).timed_out
        ≡ false }
    ensures other_cancel { (exit_timeout (Some cancelled_error) 0 expiring_and_asked).timed_out
        ≡ false }
    ensures taken_back_by_the_script { (exit_timeout
        (Some cancelled_error) 0 expiring_and_lowered).timed_out ≡ true }
    ensures expired { has_expired Expiring ≡ true }
    ensures expired_after { has_expired Expired ≡ true }
    ensures not_expired { has_expired Active ≡ false }
{}
