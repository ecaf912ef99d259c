//! Scripts whose jobs are done beside the loop.
#![tactic(auto, unfolding(model_text::specs::Tokens::tokens_of, model_text::specs::Pieces::piece_at, model_text::specs::Tokens::piece_tokens, model_text::specs::Levels::term_of, model_text::specs::Forms::form_of, model_text::specs::FirstPass::forms_from, model_text::specs::SecondPass::second_pass, model_text::specs::Bodies::statements_in, model_text::specs::Scripts::script_of, model_says::specs::Says::course, model_machine::specs::Replies::reply, model_machine::specs::Step::serve, model_machine::specs::Step::step, model_machine::specs::Turn::effect, model_machine::specs::Turn::run_below, model_machine::specs::Turn::turn, model_machine::specs::Run::run_on))]

ghost use Rattle.std.specs.Prelude.{◌≡◌};
ghost use Rattle.row_reach.specs.Jobs.{asked, done_text, done_journal, done_asked, refused_text, refused_journal, refused_asked};

/// A job that the outside does: its bytes from the last to the first.
pub fn a_job_is_done()
    ensures { asked done_text done_journal ≡ done_asked }
{}

/// A job that the outside refuses.
pub fn a_job_is_refused()
    ensures { asked refused_text refused_journal ≡ refused_asked }
{}
