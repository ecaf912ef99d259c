//! Task groups.
#![tactic(auto, unfolding(model_text::specs::Tokens::tokens_of, model_text::specs::Pieces::piece_at, model_text::specs::Tokens::piece_tokens, model_text::specs::Levels::term_of, model_text::specs::Forms::form_of, model_text::specs::FirstPass::forms_from, model_text::specs::SecondPass::second_pass, model_text::specs::Bodies::statements_in, model_text::specs::Scripts::script_of, model_says::specs::Says::course, model_machine::specs::Replies::reply, model_machine::specs::Step::serve, model_machine::specs::Step::step, model_machine::specs::Turn::effect, model_machine::specs::Turn::run_below, model_machine::specs::Turn::turn, model_machine::specs::Run::run_on))]

ghost use Rattle.std.specs.Prelude.{◌≡◌, [], ◌∷◌, true, false};
ghost use Rattle.row_machine.specs.Reading.{seen, ledger_after};
ghost use Rattle.model_loop.specs.Ledger.{Asked, Raised, Took, Began, ByGroup, ByScript};
ghost use Rattle.row_machine.specs.Groups.{child_fails_while_exit_waits_text, child_fails_while_exit_waits_seen, children_and_body_fail_text, children_and_body_fail_seen, outer_cancel_and_child_failure_text, outer_cancel_and_child_failure_seen, create_while_exiting_text, create_while_exiting_seen, second_cancel_while_aborting_text, second_cancel_while_aborting_seen, nested_text, nested_seen, uncancel_before_the_group_text, uncancel_before_the_group_seen};

/// A child fails while the exit waits for it: the parent's count stays raised by one.
pub fn child_fails_while_exit_waits()
    ensures { seen child_fails_while_exit_waits_text (0 ∷ 0 ∷ 0 ∷ 0 ∷ 0 ∷ 0 ∷ [])
        ≡ child_fails_while_exit_waits_seen }
{}

/// Two children and then the body fail: the body's failure comes last.
pub fn children_and_body_fail()
    ensures { seen children_and_body_fail_text (0 ∷ 0 ∷ 0 ∷ 0 ∷ 0 ∷ [])
        ≡ children_and_body_fail_seen }
{}

/// The parent is cancelled from outside and a child fails in one turn: the failure is raised.
pub fn outer_cancel_and_child_failure()
    ensures { seen outer_cancel_and_child_failure_text
        (0 ∷ 0 ∷ 0 ∷ 10 ∷ 10 ∷ 10 ∷ 10 ∷ 10 ∷ 10 ∷ [])
        ≡ outer_cancel_and_child_failure_seen }
{}

/// While the exit waits, a child makes another one, for which the exit waits too. After that the
/// group is finished.
pub fn create_while_exiting()
    ensures { seen create_while_exiting_text (0 ∷ 0 ∷ 0 ∷ 0 ∷ 0 ∷ 0 ∷ 0 ∷ [])
        ≡ create_while_exiting_seen }
{}

/// The parent is cancelled while the exit waits, which aborts the group; a second cancel is
/// dropped, and the first is raised after the last child.
pub fn second_cancel_while_aborting()
    ensures { seen second_cancel_while_aborting_text
        (0 ∷ 0 ∷ 0 ∷ 0 ∷ 0 ∷ 0 ∷ 0 ∷ 0 ∷ 0 ∷ 0 ∷ 0 ∷ [])
        ≡ second_cancel_while_aborting_seen }
{}

/// An inner group raises its failure in the body of an outer one, which cancels its own child and
/// raises a group of a group. Neither leaves the parent's count raised.
pub fn nested()
    ensures { seen nested_text (0 ∷ 0 ∷ 0 ∷ 0 ∷ 0 ∷ 0 ∷ 0 ∷ 0 ∷ []) ≡ nested_seen }
{}

/// The script takes the group's cancel back before the group does: the group finds no count to
/// lower, and raises the failure.
pub fn uncancel_before_the_group()
    ensures { seen uncancel_before_the_group_text (0 ∷ 0 ∷ 0 ∷ 0 ∷ 0 ∷ [])
        ≡ uncancel_before_the_group_seen }
{}

/// The ledger of that run: the group asks, the script takes back, and the group finds nothing to
/// take.
pub fn ledger_of_uncancel_before_the_group()
    ensures { ledger_after 5 uncancel_before_the_group_text (0 ∷ 0 ∷ 0 ∷ 0 ∷ 0 ∷ [])
        ≡ Asked (ByGroup 0) ∷ Raised 0 (ByGroup 0) ∷ Took 0 (ByScript 0) true ∷ Began 0
        ∷ Took 0 (ByGroup 0) false ∷ [] }
{}
