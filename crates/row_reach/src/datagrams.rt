//! Scripts that send and receive datagrams.
#![tactic(auto, unfolding(model_text::specs::Tokens::tokens_of, model_text::specs::Pieces::piece_at, model_text::specs::Tokens::piece_tokens, model_text::specs::Levels::term_of, model_text::specs::Forms::form_of, model_text::specs::FirstPass::forms_from, model_text::specs::SecondPass::second_pass, model_text::specs::Bodies::statements_in, model_text::specs::Scripts::script_of, model_says::specs::Says::course, model_machine::specs::Replies::reply, model_machine::specs::Step::serve, model_machine::specs::Step::step, model_machine::specs::Turn::effect, model_machine::specs::Turn::run_below, model_machine::specs::Turn::turn, model_machine::specs::Run::run_on))]

ghost use Rattle.std.specs.Prelude.{◌≡◌};
ghost use Rattle.row_reach.specs.Jobs.{asked};
ghost use Rattle.row_reach.specs.Datagrams.{back_text, back_journal, back_asked, again_text, again_journal, again_asked};

/// One datagram is sent, and one comes.
pub fn a_datagram_there_and_back()
    ensures { asked back_text back_journal ≡ back_asked }
{}

/// A datagram that couldn't be sent is sent as there is room.
pub fn a_datagram_is_sent_again()
    ensures { asked again_text again_journal ≡ again_asked }
{}
