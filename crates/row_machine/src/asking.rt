//! A request that is added to the loop's own, and asks the outside in the middle of its step.
#![tactic(auto, unfolding(model_text::specs::Tokens::tokens_of, model_text::specs::Pieces::piece_at, model_text::specs::Tokens::piece_tokens, model_text::specs::Levels::term_of, model_text::specs::Forms::form_of, model_text::specs::FirstPass::forms_from, model_text::specs::SecondPass::second_pass, model_text::specs::Bodies::statements_in, model_text::specs::Scripts::script_of, model_says::specs::Says::course, model_machine::specs::Replies::reply, model_machine::specs::Step::serve, model_machine::specs::Step::step, model_machine::specs::Turn::effect, model_machine::specs::Turn::run_below, model_machine::specs::Turn::turn, model_machine::specs::Run::run_on))]

ghost use Rattle.std.specs.Prelude.{◌≡◌, [], ◌∷◌, codes};
ghost use Rattle.row_machine.specs.Asking.{answered, asked_over, asked_twice, misfit, no_entry, refused, unanswered};

/// What is asked is answered in the same step: with bytes, or by a refusal, which the script sees
/// as an exception.
pub fn asks_the_outside()
    ensures answered { asked_over 0
        (codes "turn 0" ∷ codes "extra b\"z\"" ∷ codes "turn 0" ∷ []) ≡ answered }
    ensures refused { asked_over 0
        (codes "turn 0" ∷ codes "refused" ∷ codes "turn 0" ∷ []) ≡ refused }
{}

/// One request asks twice, both times in the same step, and hears each answer for its own ask.
pub fn asks_twice()
    ensures { asked_over 1
        (codes "turn 0" ∷ codes "extra b\"z\"" ∷ codes "extra b\"y\"" ∷ codes "turn 0" ∷ [])
        ≡ asked_twice }
{}

/// The run ends in the middle of the step where no answer is left, where a line is none, and where
/// the answer doesn't fit.
pub fn asks_and_the_run_ends()
    ensures over { asked_over 0 (codes "turn 0" ∷ []) ≡ unanswered }
    ensures entry { asked_over 0 (codes "turn 0" ∷ codes "extra z" ∷ []) ≡ no_entry }
    ensures misfit { asked_over 0 (codes "turn 0" ∷ codes "eof" ∷ []) ≡ misfit }
{}
