//! What coroutines say after tapes. Each function has no body: its clauses were worked out by hand.
ghost use Rattle.std.specs.Prelude.{◌≡◌, [], ◌∷◌, Some, None, pos, true, false, codes};
ghost use Rattle.model_value.specs.declared.kind.Kind.TheVariants.{ValueError, RuntimeError};
ghost use Rattle.model_value.specs.declared.request.Request.TheVariants.{Print, Pause, Sleep, TimeoutEnter, TimeoutExit, GroupEnter, GroupExit};
ghost use Rattle.model_value.specs.Value.{Nothing, Truth, Int, Text, Exception, Group, Timeout, Items, values, exception_of};
ghost use Rattle.model_says.specs.Blocks.{open_blocks};
ghost use Rattle.model_says.specs.Endings.{Asks, Returns, Raises, Runaway, saying_of};
ghost use Rattle.model_says.specs.Operations.{bad_operand, division_by_zero};
ghost use Rattle.model_says.specs.Says.{course, says, too_many_frames};
ghost use Rattle.row_says.specs.Scripts.{first, thrown, answered, refused, done, cancelled, timed_out, counting, cleaning, handling, leaving, returning, replacing, catching, dividing, descending, timing, grouping, counted, pausing, spinning};

/// A loop with prints: each print is answered, and the loop goes on.
#[tactic(auto, unfolding(model_says::specs::Says::course))]
pub fn a_loop_with_prints()
    ensures unbegun { says counting 0 [] [] ≡ Asks Pause }
    ensures begun { says counting 0 [] (first ∷ []) ≡ Asks (Print (Int (pos 0) ∷ [])) }
    ensures second { says counting 0 [] (first ∷ done ∷ []) ≡ Asks (Print (Int (pos 1) ∷ [])) }
    ensures third { says counting 0 [] (first ∷ done ∷ done ∷ [])
        ≡ Asks (Print (Int (pos 2) ∷ [])) }
    ensures end { says counting 0 [] (first ∷ done ∷ done ∷ done ∷ []) ≡ Returns Nothing }
    ensures over { says counting 0 [] (first ∷ done ∷ done ∷ done ∷ done ∷ []) ≡ Returns Nothing }
{}

/// An exception as the first input is raised, and nothing runs.
#[tactic(auto, unfolding(model_says::specs::Says::course))]
pub fn a_throw_as_the_first_input()
    ensures raised { says cleaning 0 [] (thrown cancelled ∷ []) ≡ Raises cancelled }
    ensures over { says cleaning 0 [] (thrown cancelled ∷ first ∷ []) ≡ Raises cancelled }
{}

/// A throw goes to the innermost coroutine, whose `finally` runs first.
#[tactic(auto, unfolding(model_says::specs::Says::course))]
pub fn a_throw_through_nested_calls()
    ensures waits { says cleaning 0 [] (first ∷ []) ≡ Asks (Sleep (Int (pos 1000))) }
    ensures inner { says cleaning 0 [] (first ∷ thrown cancelled ∷ [])
        ≡ Asks (Print (Text (codes "inner") ∷ [])) }
    ensures outer { says cleaning 0 [] (first ∷ thrown cancelled ∷ done ∷ [])
        ≡ Asks (Print (Exception cancelled ∷ [])) }
    ensures again { says cleaning 0 [] (first ∷ thrown cancelled ∷ done ∷ done ∷ [])
        ≡ Raises cancelled }
    ensures slept { says cleaning 0 [] (first ∷ first ∷ done ∷ [])
        ≡ Asks (Print (Text (codes "never") ∷ [])) }
    ensures replaced { says cleaning 0 [] (first ∷ first ∷ refused timed_out ∷ [])
        ≡ Raises timed_out }
{}

/// `except` clauses in order: one that binds and replaces the exception, and one that raises it
/// again.
#[tactic(auto, unfolding(model_says::specs::Says::course))]
pub fn an_exception_that_is_handled()
    ensures bound { says handling 0 [] (first ∷ [])
        ≡ Asks (Print (Exception (exception_of ValueError (codes "first")) ∷ [])) }
    ensures replaced { says handling 0 [] (first ∷ done ∷ [])
        ≡ Asks (Print (Exception (exception_of RuntimeError (codes "first")) ∷ [])) }
    ensures again { says handling 0 [] (first ∷ done ∷ done ∷ [])
        ≡ Raises (exception_of RuntimeError (codes "first")) }
{}

/// `finally` on the way of a `return`: where it passes the value is returned, and an exception out
/// of it replaces that.
#[tactic(auto, unfolding(model_says::specs::Says::course))]
pub fn a_return_through_finally()
    ensures leaves { says leaving 0 (Truth true ∷ []) (first ∷ [])
        ≡ Asks (Print (Text (codes "leaving") ∷ [])) }
    ensures raised { says leaving 0 (Truth true ∷ []) (first ∷ done ∷ [])
        ≡ Raises (exception_of ValueError (codes "finally")) }
    ensures passed { says leaving 0 (Truth false ∷ []) (first ∷ done ∷ []) ≡ Returns (Int (pos 1)) }
    ensures no_truth { says leaving 0 (Int (pos 1) ∷ []) (first ∷ done ∷ []) ≡ Raises bad_operand }
{}

/// A `return` out of a loop and two `finally`, the inner one first.
#[tactic(auto, unfolding(model_says::specs::Says::course))]
pub fn a_return_out_of_a_loop()
    ensures inner { says returning 0 [] (first ∷ []) ≡ Asks (Print (Text (codes "inner") ∷ [])) }
    ensures outer { says returning 0 [] (first ∷ done ∷ [])
        ≡ Asks (Print (Text (codes "outer") ∷ [])) }
    ensures returned { says returning 0 [] (first ∷ done ∷ done ∷ []) ≡ Returns (Int (pos 1)) }
    ensures cancelled { says returning 0 [] (first ∷ thrown cancelled ∷ [])
        ≡ Asks (Print (Text (codes "outer") ∷ [])) }
    ensures raised { says returning 0 [] (first ∷ thrown cancelled ∷ done ∷ []) ≡ Raises cancelled }
{}

/// An exception out of `finally` takes the place of the one that was on its way.
#[tactic(auto, unfolding(model_says::specs::Says::course))]
pub fn an_exception_that_finally_replaces()
    ensures waits { says replacing 0 [] (first ∷ []) ≡ Asks (Print (Text (codes "finally") ∷ [])) }
    ensures replaced { says replacing 0 [] (first ∷ done ∷ [])
        ≡ Raises (exception_of RuntimeError (codes "finally")) }
    ensures thrown { says replacing 0 [] (first ∷ thrown cancelled ∷ []) ≡ Raises cancelled }
{}

/// What ends the recursion is an exception like others, which `except BaseException` catches.
#[tactic(auto, unfolding(model_says::specs::Says::course))]
pub fn recursion_that_is_caught()
    ensures { says catching 0 [] (first ∷ []) ≡ Returns (Exception too_many_frames) }
{}

/// A loop that is left by an exception in its test.
#[tactic(auto, unfolding(model_says::specs::Says::course))]
pub fn a_test_that_raises()
    ensures prints { says dividing 0 [] (first ∷ []) ≡ Asks (Print (Int (pos 1) ∷ [])) }
    ensures left { says dividing 0 [] (first ∷ done ∷ []) ≡ Returns (Int (pos 0)) }
{}

/// The call in the 64th frame opens no frame. Its arguments are evaluated before that is tested.
#[tactic(auto, unfolding(model_says::specs::Says::course))]
pub fn recursion_to_the_limit()
    ensures last { says (descending 1000) 0 (Int (pos 1) ∷ Nothing ∷ []) (first ∷ [])
        ≡ Returns (Int (pos 64)) }
    ensures arguments { says (descending 64) 0 (Int (pos 1) ∷ Nothing ∷ []) (first ∷ [])
        ≡ Raises division_by_zero }
    ensures unevaluated { says (descending 65) 0 (Int (pos 1) ∷ Nothing ∷ []) (first ∷ [])
        ≡ Returns (Int (pos 64)) }
{}

/// A `with timeout` is entered, and left by an exception that its exit replaces, or by reaching its
/// end.
#[tactic(auto, unfolding(model_says::specs::Says::course))]
pub fn a_timeout_block()
    ensures enters { says timing 0 [] (first ∷ []) ≡ Asks (TimeoutEnter (Int (pos 10))) }
    ensures body { says timing 0 [] (first ∷ answered (Timeout 0) ∷ [])
        ≡ Asks (Sleep (Int (pos 20))) }
    ensures exits { says timing 0 [] (first ∷ answered (Timeout 0) ∷ thrown cancelled ∷ [])
        ≡ Asks (TimeoutExit (Timeout 0) (Some cancelled)) }
    ensures replaced { says timing 0 [] (first ∷ answered (Timeout 0) ∷ thrown cancelled
        ∷ refused timed_out ∷ []) ≡ Asks (Print (Exception timed_out ∷ [])) }
    ensures end { says timing 0 [] (first ∷ answered (Timeout 0) ∷ thrown cancelled
        ∷ refused timed_out ∷ done ∷ []) ≡ Returns (Timeout 0) }
    ensures passes { says timing 0 [] (first ∷ answered (Timeout 0) ∷ thrown cancelled ∷ done ∷ [])
        ≡ Raises cancelled }
    ensures slept { says timing 0 [] (first ∷ answered (Timeout 0) ∷ first ∷ [])
        ≡ Asks (TimeoutExit (Timeout 0) None) }
    ensures in_time { says timing 0 [] (first ∷ answered (Timeout 0) ∷ first ∷ done ∷ [])
        ≡ Returns (Timeout 0) }
    ensures not_entered { says timing 0 [] (first ∷ refused bad_operand ∷ []) ≡ Raises bad_operand }
{}

/// A `return` out of two blocks exits both, the inner one first. A block is open until its exit is
/// answered.
#[tactic(auto, unfolding(model_says::specs::Says::course))]
pub fn a_return_through_blocks()
    ensures outer { says grouping 0 [] (first ∷ []) ≡ Asks GroupEnter }
    ensures inner { says grouping 0 [] (first ∷ answered (Group 0) ∷ [])
        ≡ Asks (TimeoutEnter Nothing) }
    ensures inner_exit { says grouping 0 [] (first ∷ answered (Group 0) ∷ answered (Timeout 0) ∷ [])
        ≡ Asks (TimeoutExit (Timeout 0) None) }
    ensures outer_exit { says grouping 0 [] (first ∷ answered (Group 0) ∷ answered (Timeout 0)
        ∷ done ∷ []) ≡ Asks (GroupExit (Group 0) None) }
    ensures returned { says grouping 0 [] (first ∷ answered (Group 0) ∷ answered (Timeout 0) ∷ done
        ∷ first ∷ []) ≡ Returns (Items (values (Group 0 ∷ Timeout 0 ∷ []))) }
    ensures replaced { says grouping 0 [] (first ∷ answered (Group 0) ∷ answered (Timeout 0)
        ∷ refused timed_out ∷ []) ≡ Asks (GroupExit (Group 0) (Some timed_out)) }
    ensures none_open { open_blocks grouping 0 [] (first ∷ []) ≡ [] }
    ensures one_open { open_blocks grouping 0 [] (first ∷ answered (Group 0) ∷ []) ≡ Group 0 ∷ [] }
    ensures both_open { open_blocks grouping 0 [] (first ∷ answered (Group 0) ∷ answered (Timeout 0)
        ∷ []) ≡ Timeout 0 ∷ Group 0 ∷ [] }
    ensures group_open { open_blocks grouping 0 [] (first ∷ answered (Group 0)
        ∷ answered (Timeout 0) ∷ done ∷ []) ≡ Group 0 ∷ [] }
    ensures all_left { open_blocks grouping 0 [] (first ∷ answered (Group 0) ∷ answered (Timeout 0)
        ∷ done ∷ first ∷ []) ≡ [] }
{}

/// As many statements as a step may begin, and one more. Each line that counts is counted once; a
/// fresh input begins the count anew, and another one does not.
#[tactic(auto, unfolding(model_says::specs::Says::course))]
pub fn statements_of_a_step()
    ensures enough { saying_of
        (course 11 counted 0 [] (first ∷ done ∷ answered (Timeout 0) ∷ done ∷ done ∷ []))
        ≡ Returns (Int (pos 1)) }
    ensures one_more { saying_of
        (course 10 counted 0 [] (first ∷ done ∷ answered (Timeout 0) ∷ done ∷ done ∷ []))
        ≡ Runaway }
    ensures anew { saying_of
        (course 8 counted 0 [] (first ∷ done ∷ answered (Timeout 0) ∷ first ∷ done ∷ []))
        ≡ Returns (Int (pos 1)) }
    ensures first_step { saying_of
        (course 7 counted 0 [] (first ∷ done ∷ answered (Timeout 0) ∷ [])) ≡ Runaway }
    ensures tests { saying_of (course 11 counting 0 [] (first ∷ done ∷ done ∷ done ∷ []))
        ≡ Returns Nothing }
    ensures last_test { saying_of (course 10 counting 0 [] (first ∷ done ∷ done ∷ done ∷ []))
        ≡ Runaway }
    ensures forever { saying_of (course 2 pausing 0 [] (first ∷ first ∷ first ∷ first ∷ []))
        ≡ Asks Pause }
    ensures in_one_step { saying_of (course 6 pausing 0 [] (first ∷ done ∷ done ∷ []))
        ≡ Asks Pause }
    ensures too_long { saying_of (course 6 pausing 0 [] (first ∷ done ∷ done ∷ done ∷ []))
        ≡ Runaway }
{}

/// A loop that ends with the last statement that a step may begin, and one that would begin a
/// further one.
#[tactic(auto, unfolding(model_says::specs::Says::course))]
pub fn a_thousand_statements()
    ensures enough { saying_of (course 1000 spinning 0 (Int (pos 499) ∷ []) (first ∷ []))
        ≡ Returns Nothing }
    ensures one_more { saying_of (course 999 spinning 0 (Int (pos 499) ∷ []) (first ∷ []))
        ≡ Runaway }
{}
