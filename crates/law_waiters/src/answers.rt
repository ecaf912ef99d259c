//! Laws of what a gather's future gets, and of what a wait and a shield answer, call by call. Each
//! function has no body: its clauses are the laws.
ghost use Rattle.std.specs.Prelude.{◌≡◌, ◌+◌, ◌-◌, ℕ, Bool, List, [], ◌∷◌, Some, Ok, length};
ghost use Rattle.model_value.specs.Input.{Input};
ghost use Rattle.model_value.specs.Value.{Exc, Items, Outcome, Value, values};
ghost use Rattle.model_value.specs.declared.input.Input.TheVariants.{Send, Throw};
ghost use Rattle.model_says.specs.Operations.{bounded};
ghost use Rattle.model_loop.specs.Futures.{future_outcome, settle};
ghost use Rattle.model_loop.specs.Parts.{Parts};
ghost use Rattle.model_machine.specs.Extra.{Answers, Raises, Settles};
ghost use Rattle.model_gather.specs.Gathered.{Argument, Gathered, Gathering, Waiting, values_of};
ghost use Rattle.model_gather.specs.Gather.{count, items_of};
ghost use Rattle.model_gather.specs.Shield.{shield_told};
ghost use Rattle.model_gather.specs.Wait.{wait_woken};
ghost use Rattle.law_waiters.specs.Answers.{AreInOrder, GatherGets, done_of, pending_of};

/// As a member of a gather is counted, one fewer is left, and what the gather's future gets, if
/// anything, is what is promised: the exception of a member that failed, as it is counted; or, once
/// none is left, CancelledError where the gather was asked to cancel, and else the results, each at
/// its argument's place. What comes first stays: a later one changes nothing.
pub fn a_gather_gets_its_results()
    ensures counts { (p : Parts) (asked : Bool) (member : ℕ) (it : Gathering) (counted : Outcome)
        → future_outcome p member ≡ Some counted
        → GatherGets p asked counted (count p asked member it).now
        (count p asked member it).outcome }
    ensures fewer { (p : Parts) (asked : Bool) (member : ℕ) (it : Gathering)
        → (count p asked member it).now.left ≡ it.left - 1 }
    ensures in_order { (p : Parts) (awaited : List ℕ) → AreInOrder p awaited (items_of p awaited) }
    ensures first { (future : ℕ) (first second : Outcome) (p : Parts)
        → future_outcome p future ≡ Some first → settle future second p ≡ p }
{}

/// A wait whose task goes on answers two lists, unless that is too heavy or too deep: its arguments
/// that are done then, and the others, each in order; each argument is in one of them. Where its
/// task is thrown an exception, it raises that.
pub fn a_wait_answers_two_lists()
    ensures lists { (value answer : Value) (it : Waiting) (p : Parts) (kept : Gathered)
        → bounded (Items (values (Items (values (values_of (done_of p it.arguments)))
        ∷ Items (values (values_of (pending_of p it.arguments))) ∷ []))) ≡ Ok answer
        → (wait_woken (Send value) it p kept).answer ≡ Answers answer }
    ensures all { (p : Parts) (arguments : List Argument)
        → length (done_of p arguments) + length (pending_of p arguments) ≡ length arguments }
    ensures thrown { (exception : Exc) (it : Waiting) (p : Parts) (kept : Gathered)
        → (wait_woken (Throw exception) it p kept).answer ≡ Raises exception }
{}

/// As what a shield shields is done, the shield's own future gets that outcome.
pub fn a_shield_passes_its_outcome()
    ensures { (on inner : ℕ) (outcome : Outcome) (p : Parts) (kept : Gathered)
        → future_outcome p inner ≡ Some outcome
        → (shield_told on inner p kept).steps ≡ Settles on outcome ∷ [] }
{}
