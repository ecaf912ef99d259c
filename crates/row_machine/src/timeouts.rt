//! Timeouts.
#![tactic(auto, unfolding(model_text::specs::Tokens::tokens_of, model_text::specs::Pieces::piece_at, model_text::specs::Tokens::piece_tokens, model_text::specs::Levels::term_of, model_text::specs::Forms::form_of, model_text::specs::FirstPass::forms_from, model_text::specs::SecondPass::second_pass, model_text::specs::Bodies::statements_in, model_text::specs::Scripts::script_of, model_says::specs::Says::course, model_machine::specs::Replies::reply, model_machine::specs::Step::serve, model_machine::specs::Step::step, model_machine::specs::Turn::effect, model_machine::specs::Turn::run_below, model_machine::specs::Turn::turn, model_machine::specs::Run::run_on))]

ghost use Rattle.std.specs.Prelude.{◌≡◌, [], ◌∷◌};
ghost use Rattle.model_value.specs.Number.{most};
ghost use Rattle.row_machine.specs.Reading.{seen};
ghost use Rattle.row_machine.specs.Timeouts.{two_in_one_turn_text, two_in_one_turn_seen, greatest_deadline_text, greatest_deadline_seen, reschedule_finished_text, reschedule_finished_seen, reschedule_while_firing_is_pending_text, reschedule_while_firing_is_pending_seen, swallowed_cancel_text, swallowed_cancel_seen};

/// Two nested timeouts are over in one turn: the inner one lets CancelledError pass, and the outer
/// one raises TimeoutError.
pub fn two_in_one_turn()
    ensures { seen two_in_one_turn_text (0 ∷ 10 ∷ 10 ∷ 10 ∷ []) ≡ two_in_one_turn_seen }
{}

/// A deadline past the greatest number is that number, which comes.
pub fn greatest_deadline()
    ensures { seen greatest_deadline_text (5 ∷ most ∷ most ∷ most ∷ []) ≡ greatest_deadline_seen }
{}

/// A timeout whose block was left has no other deadline.
pub fn reschedule_finished()
    ensures { seen reschedule_finished_text (0 ∷ 0 ∷ []) ≡ reschedule_finished_seen }
{}

/// The timeout's handle is pending already as another task gives it a later deadline: the handle
/// does nothing.
pub fn reschedule_while_firing_is_pending()
    ensures { seen reschedule_while_firing_is_pending_text (0 ∷ 0 ∷ 9 ∷ 10 ∷ 20 ∷ 20 ∷ 20 ∷ [])
        ≡ reschedule_while_firing_is_pending_seen }
{}

/// The block swallows the cancel: the timeout has expired, takes its cancel back and raises
/// nothing.
pub fn swallowed_cancel()
    ensures { seen swallowed_cancel_text (0 ∷ 10 ∷ 10 ∷ 10 ∷ []) ≡ swallowed_cancel_seen }
{}
